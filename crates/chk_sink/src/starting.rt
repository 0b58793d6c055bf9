//! The start of a collector: its process is started, and its number of starts is counted up.

ghost use Rattle.std.specs.Prelude.{◌≡◌, ℕ, [], ◌∷◌, List, Some, IsTrue, IfOk};
ghost use Rattle.chk_bytes.specs.Numbers.{be64};
ghost use Rattle.chk_bytes.specs.Stems.{is_collector, is_count};
ghost use Rattle.chk_site.specs.declared.acts.Role.TheVariants.{Collector};
ghost use Rattle.chk_site.specs.declared.acts.Call.TheVariants.{Start};
ghost use Rattle.chk_site.specs.Site.{Adds, asked, OutsideCause};
ghost use Rattle.chk_site.specs.Runs.{HasStarted, Leads, MadeInTurn};
ghost use Rattle.chk_replace.specs.Replace.{replacement};
ghost use Rattle.chk_world.specs.Names.{BornFile, spell};
ghost use Rattle.chk_world.specs.Rules.{Legal};
ghost use Rattle.chk_world.specs.Places.{As};
ghost use Rattle.chk_world.specs.Works.{Works, fault_of};
ghost use Rattle.chk_sink.specs.Faults.{SinkCause, ended_by};
ghost use Rattle.chk_sink.specs.Works.{OfLook, OfPublishing};
ghost use Rattle.chk_sink.specs.Damage.{DamageCause, SpentCause, IsInLimit};
ghost use Rattle.chk_sink.specs.Calls.{MadeOnce};
ghost use Rattle.chk_sink.specs.Starts.{IsLastStart};
ghost use Rattle.chk_sink.specs.Starting.{ReadsNumber, Looked, ShowsStart, Published};

use crate::SinkFault;
use crate::numbers::number_from;
use chk_bytes::{LAST_NUMBER, NoMemory, Word};
use chk_replace::replace;
use chk_site::{Call, OutsideFault, Site, Who, done, taken};
use std::alloc::Global;

/// The name of the collector's number of starts.
pub(crate) fn born_name(alloc: Global, collector: &Word) -> Result<Word, NoMemory>
    requires { IsTrue (is_collector collector.now) }
    ensures { IfOk result (λ name. name ≡ spell (BornFile collector.now)) }
{
    let text = format!(in alloc; "sinks/{collector}.born")?;
    Word::from_text(alloc, text.as_str())
}

/// Starts the process, reads the number of its last start, and publishes the next one.
pub(crate) fn publish_next<S: Site>(
    alloc: Global,
    site: &mut S,
    who: &Who,
    name: Word,
) -> Result<u64, SinkFault>
    requires role { who.now.role ≡ Collector }
    requires collector { IsTrue (is_collector who.now.name) }
    requires name { name ≡ spell (BornFile who.now.name) }
    ensures told { (stamped : List (List ℕ)) → Adds (S.told site.old) (S.told site.new)
        (Leads (As stamped who.now) (Legal stamped) (Published stamped who.now result)) }
    ensures starts { IfOk result (λ _. Adds (S.told site.old) (S.told site.new) (HasStarted who.now)) }
    ensures count { IfOk result (λ born. IsTrue (is_count born)) }
    ensures spent { IsLastStart result }
    ensures spent_exactly { Adds (S.told site.old) (S.told site.new) (SpentCause result) }
    ensures damaged { Adds (S.told site.old) (S.told site.new) (DamageCause result) }
    ensures own { Works who.now (OfPublishing who.now) (ended_by result) (S.told site.old) (S.told site.new) }
    ensures cause { SinkCause (S.fault_count site.old) (S.fault_count site.new) result }
{
    let looked = last_start(alloc, site, who, name.as_str())?;
    let Some(last) = looked else {
        return Err(SinkFault::Damaged { name, at: 0 });
    };
    if last == LAST_NUMBER {
        return Err(SinkFault::Spent { born: last });
    }
    let born = last + 1;
    publish(alloc, site, who, name.as_str(), born)?;
    Ok(born)
}

// Starts the process, and reads the number of its last start: 0 where its file isn't there, and none where that
// isn't 8 bytes of a number below 2^63.
fn last_start<S: Site>(
    alloc: Global,
    site: &mut S,
    who: &Who,
    name: &str,
) -> Result<Option<u64>, OutsideFault>
    requires role { who.now.role ≡ Collector }
    requires collector { IsTrue (is_collector who.now.name) }
    requires name { name.now ≡ spell (BornFile who.now.name) }
    ensures told { (stamped : List (List ℕ)) → Adds (S.told site.old) (S.told site.new)
        (Leads (As stamped who.now) (Legal stamped) (Looked stamped who.now result)) }
    ensures starts { IfOk result (λ _. Adds (S.told site.old) (S.told site.new) (HasStarted who.now)) }
    ensures number { IfOk result IsInLimit }
    ensures shown { Adds (S.told site.old) (S.told site.new) (ShowsStart name.now result) }
    ensures own { Works who.now (OfLook who.now.name) (fault_of result) (S.told site.old) (S.told site.new) }
    ensures cause { OutsideCause (S.fault_count site.old) (S.fault_count site.new) result }
{
    begin(alloc, site, who)?;
    read_number(alloc, site, who, name)
}

// Starts the process.
fn begin<S: Site>(alloc: Global, site: &mut S, who: &Who) -> Result<(), OutsideFault>
    ensures told { MadeOnce (asked who.now Start [] 0 0) result (S.told site.old) (S.told site.new) }
    ensures cause { OutsideCause (S.fault_count site.old) (S.fault_count site.new) result }
{
    let started = site.start(alloc, who);
    done(Call::Start, started)
}

// Reads the number of the last start.
fn read_number<S: Site>(
    alloc: Global,
    site: &mut S,
    who: &Who,
    name: &str,
) -> Result<Option<u64>, OutsideFault>
    ensures told { ReadsNumber who.now name.now result (S.told site.old) (S.told site.new) }
    ensures number { IfOk result IsInLimit }
    ensures cause { OutsideCause (S.fault_count site.old) (S.fault_count site.new) result }
{
    let given = site.read(alloc, who, name, 0, 9);
    let read = taken(Call::Read, given)?;
    let Some(bytes) = read else {
        return Ok(Some(0));
    };
    Ok(number_from(bytes.as_slice(), 0))
}

// Replaces the collector's number of starts.
fn publish<S: Site>(
    alloc: Global,
    site: &mut S,
    who: &Who,
    name: &str,
    born: u64,
) -> Result<(), OutsideFault>
    ensures told { MadeInTurn (replacement who.now name.now (be64 born)) result (S.told site.old) (S.told site.new) }
    ensures cause { OutsideCause (S.fault_count site.old) (S.fault_count site.new) result }
{
    replace(alloc, site, who, name, &born.to_be_bytes())
}
