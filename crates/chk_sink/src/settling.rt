//! The settling of the sinks that were left under writing.

ghost use Rattle.std.specs.Prelude.{◌≡◌, ◌<◌, ◌≤◌, ℕ, List, [], ◌∷◌, Bool, Option, None, IfErr, IfSome, IsTrue, length};
ghost use Rattle.chk_bytes.specs.Stems.{Stem as Parts, is_stem};
ghost use Rattle.chk_site.specs.Site.{Adds};
ghost use Rattle.chk_site.specs.Runs.{Leads};
ghost use Rattle.chk_world.specs.Names.{SinkFile, MarkFile, DoneFile, spell};
ghost use Rattle.chk_world.specs.Places.{As, AtTold};
ghost use Rattle.chk_world.specs.Works.{Works};
ghost use Rattle.chk_sink.specs.Faults.{SinkCause, ended_by};
ghost use Rattle.chk_sink.specs.Works.{IsListing, OfLeft, OfSettling};
ghost use Rattle.chk_sink.specs.States.{State, process};
ghost use Rattle.chk_sink.specs.Held.{IsOther, Matches};
ghost use Rattle.chk_sink.specs.Closes.{IsOfTick};
ghost use Rattle.chk_sink.specs.Damage.{DamageCause};
ghost use Rattle.chk_sink.specs.Settling.{IsSettling, kept_stem, left_in, is_same, chosen, left_of, none_left, HoldsBut, HoldsAt, AnyFiles, NoMark, MarkedBy, CutAt, NoSink, BothGone, MarkFound, CutFound, Found};

use crate::numbers::{LEAST_MARK, damaged, number_from};
use crate::{SinkFault, names};
use chk_bytes::{NoMemory, Stem, Word};
use chk_site::{Call, CallFault, OutsideFault, Site, Who, done, taken};
use std::alloc::Global;

/// Settles each sink of the collector that the folder shows, but the one that is written to.
pub(crate) fn settle_left<S: Site>(
    alloc: Global,
    site: &mut S,
    who: &Who,
    kept: &Option<Stem>,
) -> Result<(), SinkFault>
    ensures told { (stamped : List (List ℕ)) (s : State) → IsSettling s who.now → kept.now ≡ kept_stem s
        → Adds (S.told site.old) (S.told site.new) (Leads (As stamped (process s))
        (Matches stamped s) (Found stamped s (λ _. HoldsBut s none_left) result)) }
    ensures own { (s : State) → IsSettling s who.now → kept.now ≡ kept_stem s
        → Works who.now (OfSettling s) (ended_by result) (S.told site.old) (S.told site.new) }
    ensures only { IfErr result IsOfTick }
    ensures damaged { Adds (S.told site.old) (S.told site.new) (DamageCause result) }
    ensures cause { SinkCause (S.fault_count site.old) (S.fault_count site.new) result }
{
    let names = list_sinks(alloc, site, who)?;
    settle_listed(alloc, site, who, kept, names.as_slice())
}

// The names of the files that the folder of sinks has.
fn list_sinks<S: Site>(alloc: Global, site: &mut S, who: &Who) -> Result<Vec<Word>, SinkFault>
    ensures told { (stamped : List (List ℕ)) (s : State) → IsSettling s who.now
        → Adds (S.told site.old) (S.told site.new) (Leads (As stamped (process s))
        (Matches stamped s) (Found stamped s (λ names. HoldsBut s (left_of names.items None)) result)) }
    ensures own { Works who.now IsListing (ended_by result) (S.told site.old) (S.told site.new) }
    ensures only { IfErr result IsOfTick }
    ensures damaged { Adds (S.told site.old) (S.told site.new) (DamageCause result) }
    ensures cause { SinkCause (S.fault_count site.old) (S.fault_count site.new) result }
{
    match site.list(alloc, who, "sinks") {
        Ok(names) => Ok(names),
        Err(CallFault::Failed) => Err(SinkFault::Outside { call: Call::List }),
        Err(CallFault::NoMemory) => Err(SinkFault::NoMemory),
        Err(_) => unreachable!(),
    }
}

// Settles the sinks of these names, in order.
fn settle_listed<S: Site>(
    alloc: Global,
    site: &mut S,
    who: &Who,
    kept: &Option<Stem>,
    names: &[Word],
) -> Result<(), SinkFault>
    ensures told { (stamped : List (List ℕ)) (s : State) → IsSettling s who.now → kept.now ≡ kept_stem s
        → Adds (S.told site.old) (S.told site.new) (Leads (As stamped (process s))
        (AtTold stamped (process s) (HoldsBut s (left_of names.now None)))
        (Found stamped s (λ _. HoldsBut s none_left) result)) }
    ensures own { (s : State) → IsSettling s who.now → kept.now ≡ kept_stem s
        → Works who.now (OfSettling s) (ended_by result) (S.told site.old) (S.told site.new) }
    ensures only { IfErr result IsOfTick }
    ensures damaged { Adds (S.told site.old) (S.told site.new) (DamageCause result) }
    ensures cause { SinkCause (S.fault_count site.old) (S.fault_count site.new) result }
{
    let mut last = None;
    for name in names {
        settle_named(alloc, site, who, kept, &mut last, name.as_str())?;
    }
    Ok(())
}

// Settles the sink that a name tells of, but not again the one that was settled last.
fn settle_named<S: Site>(
    alloc: Global,
    site: &mut S,
    who: &Who,
    kept: &Option<Stem>,
    last: &mut Option<Stem>,
    name: &str,
) -> Result<(), SinkFault>
    ensures told { (stamped : List (List ℕ)) (s : State) (names : List (List ℕ)) → IsSettling s who.now → kept.now ≡ kept_stem s
        → Adds (S.told site.old) (S.told site.new) (Leads (As stamped (process s))
        (AtTold stamped (process s) (HoldsBut s (left_of (name.now ∷ names) last.old)))
        (Found stamped s (λ _. HoldsBut s (left_of names last.new)) result)) }
    ensures own { (s : State) → IsSettling s who.now → kept.now ≡ kept_stem s
        → Works who.now (OfSettling s) (ended_by result) (S.told site.old) (S.told site.new) }
    ensures only { IfErr result IsOfTick }
    ensures damaged { Adds (S.told site.old) (S.told site.new) (DamageCause result) }
    ensures cause { SinkCause (S.fault_count site.old) (S.fault_count site.new) result }
{
    let Some(stem) = to_settle(who, kept, last, name) else {
        return Ok(());
    };
    settle_stem(alloc, site, who, stem)?;
    *last = Some(stem);
    Ok(())
}

// The stem that a name of the folder tells to settle: one of the collector's, neither the kept one nor the last.
fn to_settle(who: &Who, kept: &Option<Stem>, last: &Option<Stem>, name: &str) -> Option<Stem>
    ensures chosen { result ≡ chosen who.now.name kept.now last.now (left_in name.now) }
    ensures good { IfSome result (λ x. IsTrue (is_stem x)) }
{
    let stem = left_stem(name.as_bytes())?;
    let own = stem.name() == who.name.as_str();
    if own && !is_same(kept, &stem) && !is_same(last, &stem) {
        Some(stem)
    } else {
        None
    }
}

fn is_same(one: &Option<Stem>, stem: &Stem) -> bool
    ensures { result ≡ is_same one.now stem.now }
{
    match one {
        Some(one) => stem == one,
        None => false,
    }
}

// The stem of a sink under writing or of a mark, by its name in the folder.
fn left_stem(name: &[u8]) -> Option<Stem>
    ensures { result ≡ left_in name.now }
{
    match name.strip_suffix(b".chukwa".as_slice()) {
        Some(text) => Stem::read(text),
        None => Stem::read(name.strip_suffix(b".mark".as_slice())?),
    }
}

// Settles a sink of the collector: with a mark it is cut to it and closed, without one it is removed.
fn settle_stem<S: Site>(alloc: Global, site: &mut S, who: &Who, stem: Stem) -> Result<(), SinkFault>
    requires { IsTrue (is_stem stem) }
    ensures told { (stamped : List (List ℕ)) (s : State) (may : Parts → Bool) → IsSettling s who.now → IsOther s stem
        → Adds (S.told site.old) (S.told site.new) (Leads (As stamped (process s))
        (AtTold stamped (process s) (HoldsAt s may stem AnyFiles))
        (Found stamped s (λ _. HoldsAt s may stem BothGone) result)) }
    ensures own { Works who.now (OfLeft stem) (ended_by result) (S.told site.old) (S.told site.new) }
    ensures only { IfErr result IsOfTick }
    ensures damaged { Adds (S.told site.old) (S.told site.new) (DamageCause result) }
    ensures cause { SinkCause (S.fault_count site.old) (S.fault_count site.new) result }
{
    let sink = names::sink(alloc, &stem)?;
    let mark = names::mark(alloc, &stem)?;
    match read_mark(alloc, site, who, mark.as_str())? {
        Some(length) => close_at(
            alloc,
            site,
            who,
            &stem,
            sink.as_str(),
            mark.as_str(),
            length,
        ),
        None => remove_sink(alloc, site, who, sink.as_str()),
    }
}

// Closes a sink at its mark. Where there is no sink, only the mark is removed.
fn close_at<S: Site>(
    alloc: Global,
    site: &mut S,
    who: &Who,
    stem: &Stem,
    sink: &str,
    mark: &str,
    length: u64,
) -> Result<(), SinkFault>
    requires good { IsTrue (is_stem stem.now) }
    requires sink { sink.now ≡ spell (SinkFile stem.now) }
    requires mark { mark.now ≡ spell (MarkFile stem.now) }
    ensures told { (stamped : List (List ℕ)) (s : State) (may : Parts → Bool) → IsSettling s who.now → IsOther s stem.now
        → Adds (S.told site.old) (S.told site.new) (Leads (As stamped (process s))
        (AtTold stamped (process s) (HoldsAt s may stem.now (MarkedBy length)))
        (Found stamped s (λ _. HoldsAt s may stem.now BothGone) result)) }
    ensures own { Works who.now (OfLeft stem.now) (ended_by result) (S.told site.old) (S.told site.new) }
    ensures only { IfErr result IsOfTick }
    ensures damaged { Adds (S.told site.old) (S.told site.new) (DamageCause result) }
    ensures cause { SinkCause (S.fault_count site.old) (S.fault_count site.new) result }
{
    if cut_to(alloc, site, who, sink, mark, length)? {
        close_cut(alloc, site, who, stem, sink, mark)
    } else {
        remove_mark(alloc, site, who, mark)
    }
}

// Closes a sink that was cut to its mark.
fn close_cut<S: Site>(
    alloc: Global,
    site: &mut S,
    who: &Who,
    stem: &Stem,
    sink: &str,
    mark: &str,
) -> Result<(), SinkFault>
    requires good { IsTrue (is_stem stem.now) }
    requires sink { sink.now ≡ spell (SinkFile stem.now) }
    requires mark { mark.now ≡ spell (MarkFile stem.now) }
    ensures told { (stamped : List (List ℕ)) (s : State) (may : Parts → Bool) (n : ℕ) → IsSettling s who.now → IsOther s stem.now
        → Adds (S.told site.old) (S.told site.new) (Leads (As stamped (process s))
        (AtTold stamped (process s) (HoldsAt s may stem.now (CutAt n)))
        (Found stamped s (λ _. HoldsAt s may stem.now BothGone) result)) }
    ensures own { Works who.now (OfLeft stem.now) (ended_by result) (S.told site.old) (S.told site.new) }
    ensures only { IfErr result IsOfTick }
    ensures damaged { Adds (S.told site.old) (S.told site.new) (DamageCause result) }
    ensures cause { SinkCause (S.fault_count site.old) (S.fault_count site.new) result }
{
    let closed = names::closed(alloc, stem)?;
    rename_closed(alloc, site, who, sink, closed.as_str())?;
    remove_mark(alloc, site, who, mark)
}

// The number in a mark, where there is one.
fn read_mark<S: Site>(
    alloc: Global,
    site: &mut S,
    who: &Who,
    mark: &str,
) -> Result<Option<u64>, SinkFault>
    ensures told { (stamped : List (List ℕ)) (s : State) (may : Parts → Bool) (x : Parts) → IsSettling s who.now → IsOther s x
        → mark.now ≡ spell (MarkFile x) → Adds (S.told site.old) (S.told site.new) (Leads (As stamped (process s))
        (AtTold stamped (process s) (HoldsAt s may x AnyFiles))
        (Found stamped s (λ found. HoldsAt s may x (MarkFound found)) result)) }
    ensures own { (x : Parts) → mark.now ≡ spell (MarkFile x)
        → Works who.now (OfLeft x) (ended_by result) (S.told site.old) (S.told site.new) }
    ensures only { IfErr result IsOfTick }
    ensures damaged { (x : Parts) → IsTrue (is_stem x) → mark.now ≡ spell (MarkFile x)
        → Adds (S.told site.old) (S.told site.new) (DamageCause result) }
    ensures cause { SinkCause (S.fault_count site.old) (S.fault_count site.new) result }
{
    let read = site.read(alloc, who, mark, 0, 9);
    match taken(Call::Read, read)? {
        None => Ok(None),
        Some(bytes) => match number_from(bytes.as_slice(), LEAST_MARK) {
            Some(number) => Ok(Some(number)),
            None => Err(damaged(alloc, mark)),
        },
    }
}

// Cuts a sink to its mark, and answers whether there is one.
fn cut_to<S: Site>(
    alloc: Global,
    site: &mut S,
    who: &Who,
    sink: &str,
    mark: &str,
    length: u64,
) -> Result<bool, SinkFault>
    ensures told { (stamped : List (List ℕ)) (s : State) (may : Parts → Bool) (x : Parts) → IsSettling s who.now → IsOther s x
        → sink.now ≡ spell (SinkFile x) → Adds (S.told site.old) (S.told site.new) (Leads (As stamped (process s))
        (AtTold stamped (process s) (HoldsAt s may x (MarkedBy length)))
        (Found stamped s (λ there. HoldsAt s may x (CutFound length there)) result)) }
    ensures own { (x : Parts) → sink.now ≡ spell (SinkFile x)
        → Works who.now (OfLeft x) (ended_by result) (S.told site.old) (S.told site.new) }
    ensures only { IfErr result IsOfTick }
    ensures damaged { (x : Parts) → IsTrue (is_stem x) → sink.now ≡ spell (SinkFile x) → mark.now ≡ spell (MarkFile x)
        → Adds (S.told site.old) (S.told site.new) (DamageCause result) }
    ensures cause { SinkCause (S.fault_count site.old) (S.fault_count site.new) result }
{
    match site.cut(alloc, who, sink, length) {
        Ok(()) => Ok(true),
        Err(CallFault::Short { .. }) => Err(damaged(alloc, mark)),
        Err(CallFault::Failed) => Err(SinkFault::Outside { call: Call::Cut }),
        Err(CallFault::NoMemory) => Err(SinkFault::NoMemory),
        Err(CallFault::Missing) => Ok(false),
        Err(CallFault::Exists) => unreachable!(),
    }
}

// Closes a sink.
fn rename_closed<S: Site>(
    alloc: Global,
    site: &mut S,
    who: &Who,
    sink: &str,
    closed: &str,
) -> Result<(), SinkFault>
    ensures told { (stamped : List (List ℕ)) (s : State) (may : Parts → Bool) (x : Parts) (n : ℕ) → IsSettling s who.now → IsOther s x
        → sink.now ≡ spell (SinkFile x) → closed.now ≡ spell (DoneFile x)
        → Adds (S.told site.old) (S.told site.new) (Leads (As stamped (process s))
        (AtTold stamped (process s) (HoldsAt s may x (CutAt n)))
        (Found stamped s (λ _. HoldsAt s may x NoSink) result)) }
    ensures own { (x : Parts) → sink.now ≡ spell (SinkFile x) → closed.now ≡ spell (DoneFile x)
        → Works who.now (OfLeft x) (ended_by result) (S.told site.old) (S.told site.new) }
    ensures only { IfErr result IsOfTick }
    ensures damaged { Adds (S.told site.old) (S.told site.new) (DamageCause result) }
    ensures cause { SinkCause (S.fault_count site.old) (S.fault_count site.new) result }
{
    let renamed = site.rename(alloc, who, sink, closed);
    done(Call::Rename, renamed)?;
    Ok(())
}

// Removes a sink that has no mark, where it is there.
fn remove_sink<S: Site>(alloc: Global, site: &mut S, who: &Who, sink: &str) -> Result<(), SinkFault>
    ensures told { (stamped : List (List ℕ)) (s : State) (may : Parts → Bool) (x : Parts) → IsSettling s who.now → IsOther s x
        → sink.now ≡ spell (SinkFile x) → Adds (S.told site.old) (S.told site.new) (Leads (As stamped (process s))
        (AtTold stamped (process s) (HoldsAt s may x NoMark))
        (Found stamped s (λ _. HoldsAt s may x BothGone) result)) }
    ensures own { (x : Parts) → sink.now ≡ spell (SinkFile x)
        → Works who.now (OfLeft x) (ended_by result) (S.told site.old) (S.told site.new) }
    ensures only { IfErr result IsOfTick }
    ensures damaged { Adds (S.told site.old) (S.told site.new) (DamageCause result) }
    ensures cause { SinkCause (S.fault_count site.old) (S.fault_count site.new) result }
{
    let removed = site.remove(alloc, who, sink);
    done(Call::Remove, removed)?;
    Ok(())
}

// Removes a mark whose sink isn't there.
fn remove_mark<S: Site>(alloc: Global, site: &mut S, who: &Who, mark: &str) -> Result<(), SinkFault>
    ensures told { (stamped : List (List ℕ)) (s : State) (may : Parts → Bool) (x : Parts) → IsSettling s who.now → IsOther s x
        → mark.now ≡ spell (MarkFile x) → Adds (S.told site.old) (S.told site.new) (Leads (As stamped (process s))
        (AtTold stamped (process s) (HoldsAt s may x NoSink))
        (Found stamped s (λ _. HoldsAt s may x BothGone) result)) }
    ensures own { (x : Parts) → mark.now ≡ spell (MarkFile x)
        → Works who.now (OfLeft x) (ended_by result) (S.told site.old) (S.told site.new) }
    ensures only { IfErr result IsOfTick }
    ensures damaged { Adds (S.told site.old) (S.told site.new) (DamageCause result) }
    ensures cause { SinkCause (S.fault_count site.old) (S.fault_count site.new) result }
{
    let removed = site.remove(alloc, who, mark);
    done(Call::Remove, removed)?;
    Ok(())
}
