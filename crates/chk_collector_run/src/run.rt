//! The command of a collector.

ghost use Rattle.std.specs.Prelude.{◌≡◌, ℕ, List, Contains, IsTrue, IfErr, OnOk};
ghost use Rattle.chk_bytes.specs.Stems.{is_collector};
ghost use Rattle.chk_site.specs.declared.acts.Role.TheVariants.{Collector as collector_role};
ghost use Rattle.chk_site.specs.declared.acts.Who.{Who as Process};
ghost use Rattle.chk_site.specs.Site.{Adds};
ghost use Rattle.chk_site.specs.Runs.{Leads};
ghost use Rattle.chk_world.specs.Places.{Foreign, Talking};
ghost use Rattle.chk_world.specs.Rules.{Legal};
ghost use Rattle.chk_world.specs.Together.{Outside, Together};
ghost use Rattle.chk_sink.specs.Closes.{IsOfTick};
ghost use Rattle.chk_sink.specs.Faults.{FailsLast};
ghost use Rattle.chk_sink.specs.Held.{Matches};
ghost use Rattle.chk_sink.specs.Starts.{IsLastStart};
ghost use Rattle.chk_sink.specs.States.{IsSameStart, process};
ghost use Rattle.chk_collector_run.specs.Legality.{IsSettled, ChainEnds, Finds, FindsNamed, TurnCause};
ghost use Rattle.chk_collector_run.specs.Turns.{AreTurned};
ghost use Rattle.chk_collector_run.specs.Runs.{CollectorRan, IsCutRun, Collected};

use crate::turn::collector_turn;
use chk_bytes::Word;
use chk_collector::Collector;
use chk_sink::SinkFault;
use chk_site::{Site, Who};
use chk_tee_sender::Tees;
use std::alloc::Global;

/// The command: starts the collector, runs so many turns at that door, each of at most `most`
/// messages, and finishes. A turn waits up to 1,000 milliseconds for its first message; for a
/// further one up to 20 behind one of 3,932,160 bytes or more, and else not at all. A further
/// message is taken before what the earlier ones of its turn appended is committed. A sink is closed
/// after `rotate` milliseconds. Behind an answer that was done the subscribers are sent what was
/// written; one that couldn't be sent it is dropped. After a refusal nothing more is called, and the finished parts stand;
/// the next start settles what was left.
pub fn collect<S: Site>(
    alloc: Global,
    site: &mut S,
    who: &Who,
    rotate: u64,
    turns: u64,
    most: u64,
    door: &Word,
    tees: &mut Tees,
) -> Result<(), SinkFault>
    requires role { who.now.role ≡ collector_role }
    requires name { IsTrue (is_collector who.now.name) }
    ensures ran { OnOk result (CollectorRan who.now rotate turns door.now most 1000 tees.old
        (S.told site.old) (S.told site.new)) }
    ensures refused { IfErr result (λ fault. IsCutRun who.now rotate turns door.now most 1000
        tees.old fault (S.told site.old) (S.told site.new)) }
    ensures told { (stamped : List (List ℕ)) (started acting : List Process)
        → Contains started who.now → Contains acting who.now
        → Adds (S.told site.old) (S.told site.new)
        (Leads (Together stamped started acting) (Legal stamped) (Collected stamped who.now result)) }
    ensures finds { (stamped : List (List ℕ)) (started : List Process) → Contains started who.now
        → Adds (S.told site.old) (S.told site.new)
        (Finds (Outside stamped started) who.now.name (Legal stamped)) }
    ensures named { (stamped : List (List ℕ)) (started : List Process) → Contains started who.now
        → Adds (S.told site.old) (S.told site.new)
        (FindsNamed (Outside stamped started) who.now (Legal stamped)) }
    ensures spent { IsLastStart result }
    ensures last { Adds (S.told site.old) (S.told site.new) (FailsLast result) }
    ensures cause { TurnCause (S.fault_count site.old) (S.fault_count site.new) result }
{
    let mut collector = Collector::start(alloc, site, who, rotate)?;
    run_turns(alloc, site, who, &mut collector, door, turns, most, tees)?;
    collector.finish(alloc, site)
}

// So many turns, each of at most so many messages.
fn run_turns<S: Site>(
    alloc: Global,
    site: &mut S,
    who: &Who,
    collector: &mut Collector,
    door: &Word,
    turns: u64,
    most: u64,
    tees: &mut Tees,
) -> Result<(), SinkFault>
    requires started { who.now ≡ process collector.old }
    requires named { IsTrue (is_collector who.now.name) }
    requires settled { IsSettled collector.old }
    ensures script { AreTurned who.now door.now most 1000 turns collector.old tees.old (S.told site.old)
        result collector.new tees.new (S.told site.new) }
    ensures told { (stamped : List (List ℕ)) → Adds (S.told site.old) (S.told site.new)
        (Leads (Talking stamped who.now) (Matches stamped collector.old)
        (ChainEnds stamped collector.new result)) }
    ensures finds { (stamped : List (List ℕ)) → Adds (S.told site.old) (S.told site.new)
        (Finds (Foreign stamped who.now) who.now.name (Matches stamped collector.old)) }
    ensures same { IsSameStart collector.old collector.new }
    ensures only { IfErr result IsOfTick }
    ensures last { Adds (S.told site.old) (S.told site.new) (FailsLast result) }
    ensures cause { TurnCause (S.fault_count site.old) (S.fault_count site.new) result }
{
    for _turn in 0..turns {
        collector_turn(alloc, site, who, collector, door, most, tees)?;
    }
    Ok(())
}
