//! The collector's part of an exchange.

ghost use Rattle.std.specs.Prelude.{◌≡◌, ℕ, List, Contains, IsTrue};
ghost use Rattle.chk_bytes.specs.Stems.{is_collector};
ghost use Rattle.chk_site.specs.declared.acts.Who.{Who as Person};
ghost use Rattle.chk_site.specs.Site.{Adds};
ghost use Rattle.chk_site.specs.Runs.{Leads};
ghost use Rattle.chk_world.specs.Together.{Together};
ghost use Rattle.chk_sink.specs.States.{IsSameStart, process};
ghost use Rattle.chk_collector.specs.Handled.{KeepsSeen};
ghost use Rattle.chk_agent.specs.Fits.{IsSound};
ghost use Rattle.chk_agent.specs.States.{State as Agents, process as agent_of};
ghost use Rattle.chk_exchange.specs.Exchanges.{Responds, Serves};
ghost use Rattle.chk_exchange.specs.Faults.{ExchangeCause, ServedCause};
ghost use Rattle.chk_exchange.specs.Least.{RepliedIn};
ghost use Rattle.chk_exchange.specs.Legality.{AllTaken, AllWaiting, Served};

use crate::calls::{send_answer, take_waiting};
use crate::fault::ExchangeFault;
use crate::made::fault_told;
use chk_collector::Collector;
use chk_site::{Site, Taking, Who};
use std::alloc::Global;

/// Takes the message that waits in the mailbox, handles it and answers it. It gives the fault that
/// the reply tells; none where it tells none, or no message waits.
pub(crate) fn serve<S: Site>(
    alloc: Global,
    site: &mut S,
    collector: &mut Collector,
    who: &Who,
) -> Result<Option<ExchangeFault>, ExchangeFault>
    requires started { who.now ≡ process collector.old }
    requires named { IsTrue (is_collector who.now.name) }
    ensures script { Serves who.now collector.old result collector.new
        (S.told site.old) (S.told site.new) }
    ensures told { (stamped : List (List ℕ)) (started acting : List Person) (a : Agents) (m : ℕ)
        (bytes : List ℕ) → IsSound a → Contains started (process collector.old)
        → Contains started (agent_of a) → Contains acting (process collector.old)
        → Adds (S.told site.old) (S.told site.new) (Leads (Together stamped started acting)
        (AllWaiting stamped collector.old a m bytes)
        (Served stamped collector.new a m bytes (RepliedIn collector.old collector.new
        (S.told site.old) (S.told site.new)) result)) }
    ensures cause { ServedCause (S.fault_count site.old) (S.fault_count site.new) result }
    ensures same { IsSameStart collector.old collector.new }
    ensures seen { KeepsSeen collector.old collector.new }
{
    let taken = take_waiting(alloc, site, who)?;
    match taken {
        None => Ok(None),
        Some(taking) => respond(alloc, site, collector, who, taking),
    }
}

// Handles what was taken and answers it once.
fn respond<S: Site>(
    alloc: Global,
    site: &mut S,
    collector: &mut Collector,
    who: &Who,
    taking: Taking,
) -> Result<Option<ExchangeFault>, ExchangeFault>
    requires started { who.now ≡ process collector.old }
    requires named { IsTrue (is_collector who.now.name) }
    ensures script { Responds who.now collector.old taking.number taking.bytes result collector.new
        (S.told site.old) (S.told site.new) }
    ensures told { (stamped : List (List ℕ)) (started acting : List Person) (a : Agents) (m : ℕ)
        → IsSound a → Contains started (process collector.old) → Contains started (agent_of a)
        → Contains acting (process collector.old)
        → Adds (S.told site.old) (S.told site.new) (Leads (Together stamped started acting)
        (AllTaken stamped collector.old a m taking.number taking.bytes)
        (Served stamped collector.new a m taking.bytes (RepliedIn collector.old collector.new
        (S.told site.old) (S.told site.new)) result)) }
    ensures cause { ServedCause (S.fault_count site.old) (S.fault_count site.new) result }
    ensures same { IsSameStart collector.old collector.new }
    ensures seen { KeepsSeen collector.old collector.new }
{
    let reply = collector.respond(alloc, site, taking.bytes.as_slice())?;
    send_answer(alloc, site, who, taking.number, reply.as_slice())?;
    let made = fault_told(alloc, reply.as_slice())?;
    Ok(made)
}
