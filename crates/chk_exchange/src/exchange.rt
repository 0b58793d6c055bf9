//! One message inside the process.

ghost use Rattle.std.specs.Prelude.{◌≡◌, ◌≢◌, ℕ, List, [], ◌∷◌, Contains, IfOk, IsTrue, OnOk, Ok, Some, option_map, is_some, length, true};
ghost use Rattle.chk_bytes.specs.Stems.{Stem, is_collector};
ghost use Rattle.chk_site.specs.declared.acts.Call.TheVariants.{Send};
ghost use Rattle.chk_site.specs.declared.acts.Who.{Who as Person};
ghost use Rattle.chk_site.specs.Messages.{self_address};
ghost use Rattle.chk_site.specs.Site.{Adds};
ghost use Rattle.chk_site.specs.Runs.{Leads};
ghost use Rattle.chk_world.specs.Places.{As, Making};
ghost use Rattle.chk_world.specs.Together.{Together};
ghost use Rattle.chk_world.specs.Works.{NoneFailed};
ghost use Rattle.chk_sink.specs.States.{IsSameStart, process};
ghost use Rattle.chk_collector.specs.Handled.{KeepsSeen};
ghost use Rattle.chk_agent_delivery.specs.States.{free_rows};
ghost use Rattle.chk_agent_delivery.specs.Turns.{asked_stems};
ghost use Rattle.chk_agent.specs.Facts.{Matches};
ghost use Rattle.chk_agent.specs.Fits.{IsSound};
ghost use Rattle.chk_agent.specs.States.{process as agent_of};
ghost use Rattle.chk_exchange.specs.declared.fault.ExchangeFault.{ExchangeFault as Fault};
ghost use Rattle.chk_exchange.specs.Exchanges.{SendsPost, EndsPost, PostsInside, SendsPoll, EndsPoll, PollsInside};
ghost use Rattle.chk_exchange.specs.Faults.{IsOtherCode, ExchangeCause, ServedCause, FailsLast};
ghost use Rattle.chk_exchange.specs.Least.{TellsLeast};
ghost use Rattle.chk_exchange.specs.Legality.{BothAt, Exchanged};
ghost use Rattle.chk_exchange.specs.OwnRows.{KeepsOwn};

use crate::answering::serve;
use crate::fault::ExchangeFault;
use chk_agent::Agent;
use chk_agent_delivery::{Answered, Below, PollAnswer, Polled, Posted};
use chk_collector::Collector;
use chk_site::{Call, Site, Who};
use std::alloc::Global;

/// Posts the longest front of the queue that fits a post and the free rows, has the collector `who`
/// answer it, and takes the reply at `now`, in milliseconds. At Ok the chunks of the post left the
/// queue. A message is sent, taken, answered and got, with one append a chunk between; nothing is
/// made durable. Where no message is there to take, the agent asks for the reply all the same.
pub fn post_inside<S: Site>(
    alloc: Global,
    site: &mut S,
    agent: &mut Agent,
    collector: &mut Collector,
    who: &Who,
    now: u64,
) -> Result<(), ExchangeFault>
    requires started { who.now ≡ process collector.old }
    requires named { IsTrue (is_collector who.now.name) }
    requires ready { agent.old.ready ≡ true }
    requires address { agent.old.delivery.ring.addresses ≡ self_address ∷ [] }
    requires some { agent.old.delivery.queue.chunks ≢ [] }
    requires room { free_rows agent.old.delivery ≢ 0 }
    ensures script { PostsInside who.now now collector.old agent.old result collector.new agent.new
        (S.told site.old) (S.told site.new) }
    ensures told { (stamped : List (List ℕ)) (started acting : List Person)
        → Contains started who.now → Contains started (agent_of agent.old)
        → Contains acting who.now → Contains acting (agent_of agent.old)
        → Adds (S.told site.old) (S.told site.new) (Leads (Together stamped started acting)
        (BothAt stamped collector.old agent.old)
        (Exchanged stamped collector.new agent.new result)) }
    ensures rows { OnOk result (KeepsOwn who.now collector.old agent.old collector.new agent.new
        (S.told site.old) (S.told site.new)) }
    ensures fine { OnOk result (Adds (S.told site.old) (S.told site.new) NoneFailed) }
    ensures last { Adds (S.told site.old) (S.told site.new) (FailsLast result) }
    ensures cause { ExchangeCause (S.fault_count site.old) (S.fault_count site.new) result }
    ensures same { IsSameStart collector.old collector.new }
    ensures seen { KeepsSeen collector.old collector.new }
    ensures ready { agent.new.ready ≡ true }
    ensures address { agent.new.delivery.ring.addresses ≡ agent.old.delivery.ring.addresses }
{
    send_post(alloc, site, agent)?;
    let made = serve(alloc, site, collector, who)?;
    end_post(alloc, site, agent, now, made)
}

// Sends a post.
fn send_post<S: Site>(alloc: Global, site: &mut S, agent: &mut Agent) -> Result<(), ExchangeFault>
    requires ready { agent.old.ready ≡ true }
    requires some { agent.old.delivery.queue.chunks ≢ [] }
    requires room { free_rows agent.old.delivery ≢ 0 }
    ensures script { SendsPost agent.old result agent.new (S.told site.old) (S.told site.new) }
    ensures told { (stamped : List (List ℕ)) → Adds (S.told site.old) (S.told site.new)
        (Leads (Making stamped (agent_of agent.old) Send) (Matches stamped agent.old)
        (Matches stamped agent.new)) }
    ensures cause { ExchangeCause (S.fault_count site.old) (S.fault_count site.new) result }
    ensures sound { OnOk result (IsSound agent.new) }
{
    match agent.post(alloc, site) {
        Ok(Posted::Sent { .. }) => {
            let _sound = agent.ready();
            Ok(())
        }
        Ok(Posted::Failed) => Err(ExchangeFault::Outside { call: Call::Send }),
        Ok(Posted::Empty | Posted::NoRows) => unreachable!(),
        Err(_) => Err(ExchangeFault::NoMemory),
    }
}

// Takes the reply to the post, where the collector's reply told this fault or none.
fn end_post<S: Site>(
    alloc: Global,
    site: &mut S,
    agent: &mut Agent,
    now: u64,
    made: Option<ExchangeFault>,
) -> Result<(), ExchangeFault>
    requires ready { agent.old.ready ≡ true }
    requires out { is_some agent.old.delivery.post ≡ true }
    ensures script { (count : ℕ) → option_map (λ p. p.count) agent.old.delivery.post ≡ Some count
        → EndsPost now count agent.old made result agent.new (S.told site.old) (S.told site.new) }
    ensures told { (stamped : List (List ℕ)) → Adds (S.told site.old) (S.told site.new)
        (Leads (As stamped (agent_of agent.old)) (Matches stamped agent.old)
        (Matches stamped agent.new)) }
    ensures cause { (start : ℕ) → ServedCause start (S.fault_count site.old) (Ok made)
        → ExchangeCause start (S.fault_count site.new) result }
{
    match agent.post_reply(alloc, site, now) {
        Ok(Answered::Taken { .. }) => match made {
            None => Ok(()),
            Some(fault) => Err(fault),
        },
        Ok(Answered::Refused { code }) => Err(refusal(made, code)),
        Ok(Answered::Silent) => Err(ExchangeFault::Outside { call: Call::Got }),
        Ok(Answered::Nothing) => unreachable!(),
        Err(_) => Err(ExchangeFault::NoMemory),
    }
}

// What a reply of this code tells that isn't a good one, where the collector's reply told this
// fault or none.
fn refusal(made: Option<ExchangeFault>, code: u16) -> ExchangeFault
    ensures told { (fault : Fault) → made ≡ Some fault → code ≡ 503 → result ≡ fault }
    ensures other { IsOtherCode made code → result ≡ ExchangeFault.Refused code }
{
    match made {
        Some(fault) if code == 503 => fault,
        _ => ExchangeFault::Refused { code },
    }
}

/// Asks the collector `who` for the committed lengths of the first 64 different sinks with unmarked
/// rows, and takes the reply. It gives the first unmarked row, in order of answers, whose sink is
/// one of these, where its length is below the row's offset. A message is sent, taken, answered and
/// got, with one or two calls a sink between.
pub fn poll_inside<S: Site>(
    alloc: Global,
    site: &mut S,
    agent: &mut Agent,
    collector: &mut Collector,
    who: &Who,
) -> Result<Option<Below>, ExchangeFault>
    requires started { who.now ≡ process collector.old }
    requires named { IsTrue (is_collector who.now.name) }
    requires ready { agent.old.ready ≡ true }
    requires address { agent.old.delivery.ring.addresses ≡ self_address ∷ [] }
    requires some { asked_stems agent.old.delivery.table ≢ [] }
    ensures script { PollsInside who.now collector.old agent.old result collector.new agent.new
        (S.told site.old) (S.told site.new) }
    ensures least { IfOk result (λ below. TellsLeast who.now collector.old agent.old below
        (S.told site.old) (S.told site.new)) }
    ensures told { (stamped : List (List ℕ)) (started acting : List Person)
        → Contains started who.now → Contains started (agent_of agent.old)
        → Contains acting who.now → Contains acting (agent_of agent.old)
        → Adds (S.told site.old) (S.told site.new) (Leads (Together stamped started acting)
        (BothAt stamped collector.old agent.old)
        (Exchanged stamped collector.new agent.new result)) }
    ensures fine { OnOk result (Adds (S.told site.old) (S.told site.new) NoneFailed) }
    ensures last { Adds (S.told site.old) (S.told site.new) (FailsLast result) }
    ensures cause { ExchangeCause (S.fault_count site.old) (S.fault_count site.new) result }
    ensures same { IsSameStart collector.old collector.new }
    ensures seen { KeepsSeen collector.old collector.new }
    ensures ready { agent.new.ready ≡ true }
    ensures address { agent.new.delivery.ring.addresses ≡ agent.old.delivery.ring.addresses }
{
    send_poll(alloc, site, agent)?;
    let made = serve(alloc, site, collector, who)?;
    end_poll(alloc, site, agent, made)
}

// Sends a poll.
fn send_poll<S: Site>(alloc: Global, site: &mut S, agent: &mut Agent) -> Result<(), ExchangeFault>
    requires ready { agent.old.ready ≡ true }
    requires some { asked_stems agent.old.delivery.table ≢ [] }
    ensures script { SendsPoll agent.old result agent.new (S.told site.old) (S.told site.new) }
    ensures told { (stamped : List (List ℕ)) → Adds (S.told site.old) (S.told site.new)
        (Leads (Making stamped (agent_of agent.old) Send) (Matches stamped agent.old)
        (Matches stamped agent.new)) }
    ensures cause { ExchangeCause (S.fault_count site.old) (S.fault_count site.new) result }
    ensures sound { OnOk result (IsSound agent.new) }
{
    match agent.poll(alloc, site) {
        Ok(Polled::Sent { .. }) => {
            let _sound = agent.ready();
            Ok(())
        }
        Ok(Polled::Failed) => Err(ExchangeFault::Outside { call: Call::Send }),
        Ok(Polled::NoneWaiting) => unreachable!(),
        Err(_) => Err(ExchangeFault::NoMemory),
    }
}

// Takes the reply to the poll, where the collector's reply told this fault or none.
fn end_poll<S: Site>(
    alloc: Global,
    site: &mut S,
    agent: &mut Agent,
    made: Option<ExchangeFault>,
) -> Result<Option<Below>, ExchangeFault>
    requires ready { agent.old.ready ≡ true }
    requires out { is_some agent.old.delivery.poll ≡ true }
    ensures script { (stems : List Stem)
        → option_map (λ p. p.stems) agent.old.delivery.poll ≡ Some stems
        → EndsPoll (length stems) agent.old made result agent.new
        (S.told site.old) (S.told site.new) }
    ensures told { (stamped : List (List ℕ)) → Adds (S.told site.old) (S.told site.new)
        (Leads (As stamped (agent_of agent.old)) (Matches stamped agent.old)
        (Matches stamped agent.new)) }
    ensures cause { (start : ℕ) → ServedCause start (S.fault_count site.old) (Ok made)
        → ExchangeCause start (S.fault_count site.new) result }
{
    match agent.poll_reply(alloc, site) {
        Ok(PollAnswer::Lengths { below, .. }) => match made {
            None => Ok(below),
            Some(fault) => Err(fault),
        },
        Ok(PollAnswer::Refused { code }) => Err(refusal(made, code)),
        Ok(PollAnswer::Silent) => Err(ExchangeFault::Outside { call: Call::Got }),
        Ok(PollAnswer::Nothing) => unreachable!(),
        Err(_) => Err(ExchangeFault::NoMemory),
    }
}
