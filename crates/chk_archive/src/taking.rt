//! What an archive run takes and sets aside, once the sinks are listed.

ghost use Rattle.std.specs.Prelude.{◌≡◌, ◌+◌, ◌≤◌, ◌==◌, ◌||◌, not, false, [], ℕ, List, length, All, IsTrue, IfOk, IfErr, OnOk};
ghost use Rattle.chk_site.specs.Files.{Files};
ghost use Rattle.chk_site.specs.History.{Every};
ghost use Rattle.chk_site.specs.Site.{Adds, LastFailed, OutsideCause};
ghost use Rattle.chk_site.specs.Runs.{anyhow, Leads};
ghost use Rattle.chk_chunk.specs.Keys.{Chunk};
ghost use Rattle.chk_world.proofs.Each.{Each};
ghost use Rattle.chk_world.specs.Places.{As};
ghost use Rattle.chk_world.specs.Sight.{job, Sight, own_book, AtJob};
ghost use Rattle.chk_world.specs.JobSteps.{IsOf};
ghost use Rattle.chk_world.specs.Names.{ArchiveFolder};
ghost use Rattle.chk_record_index.specs.Faults.{JobCause, FailsLast};
ghost use Rattle.chk_record_index.specs.Pieces.{AsksInPieces};
ghost use Rattle.chk_record_index.specs.Causes.{Shows};
ghost use Rattle.chk_record_reader.specs.Gone.{IsGoneIn};
ghost use Rattle.chk_archive.specs.Shown.{IsUnfit, ShowsTaken, IfSpent, IsAtLast, number_for, LacksFor, LacksOver, LacksOne};
ghost use Rattle.chk_book.specs.Books.{book_view};
ghost use Rattle.chk_record_reader.specs.Segments.{HasFiles, SparesFiles, AreSettled};
ghost use Rattle.chk_archive_parts.specs.Cuts.{AreWithin, cut_chunks};
ghost use Rattle.chk_archive_parts.specs.Kept.{IsFirst};
ghost use Rattle.chk_archive_parts.specs.Records.{AreRecords, found_in};
ghost use Rattle.chk_archive.specs.Holding.{HoldsOnce};
ghost use Rattle.chk_archive.specs.Archived.{MergesBy, ReplacesBook};
ghost use Rattle.chk_archive.specs.Listed.{IsListed, sources_in};
ghost use Rattle.chk_archive_parts.specs.Gathering.{held, AreSound, heads_of};
ghost use Rattle.chk_archive.specs.Starts.{HaveStartsIn, ToldOtherStart};
ghost use Rattle.chk_record_index.specs.Order.{in_head_order};
ghost use Rattle.chk_world.specs.ArchiveRuns.{in_order, found};
ghost use Rattle.chk_archive.specs.Written.{kept_aside};
ghost use Rattle.chk_archive_parts.specs.Publishing.{Published};
ghost use Rattle.chk_archive.specs.Numbers.{Numbered};
ghost use Rattle.chk_archive_parts.specs.Writes.{IsFree};
ghost use Rattle.chk_archive.specs.Taking.{IsPlanned, IsCut, AreSorted, CanPrepare, IsWhole, Prepared, PartsTaken, AsideKept, stays_aside, MayFollowIf, TookSo, ReadSources};

use crate::counting::count_of;
use crate::known::known_ends;
use crate::sources::sources;
use crate::starts::check_starts;
use chk_archive_parts::{
    Cut, Cuts, Purpose, add_segment, count_first, cuts_of, gather_found, is_old_aside, kept_of,
    publish_next,
};
use chk_archive_plan::{Span, plan, taken};
use chk_book::Book;
use chk_bytes::{NoMemory, Word};
use chk_record_index::{Heads, JobFault};
use chk_site::{OutsideFault, Site, Who};
use std::alloc::Global;

/// What is taken of heads that stand in order.
#[derive(Drop)]
pub(crate) struct Planned {
    pub spans: Vec<Span>,
    /// How many bytes.
    pub taken: u64,
    pub cuts: Cuts,
}

/// How many bytes were taken, and how many chunks are set aside.
#[derive(Clone, Copy)]
pub(crate) struct Taken {
    pub taken: u64,
    pub held: u32,
}

/// Reads what stands in the aside segment and in the listed done sinks, takes what goes on from the archive's ends, sets aside what
/// lies past a gap, and publishes the book that says so, where anything changed. Each file is read once for its heads, and once more
/// for what is written. After a refusal nothing is said of `book`.
pub(crate) fn take_in<S: Site>(
    alloc: Global,
    site: &mut S,
    who: &Who,
    book: &mut Book,
    names: &[Word],
) -> Result<Taken, JobFault>
    requires { who.now ≡ job }
    ensures raw { (held : Files) → AreSettled (sources_in (book_view book.old) names.now) held → Adds (S.told site.old) (S.told site.new)
        (Leads (anyhow (SparesFiles (sources_in (book_view book.old) names.now)))
        (HasFiles (sources_in (book_view book.old) names.now) held)
        (ReadSources (sources_in (book_view book.old) names.now) (book_view book.old).ends held result)) }
    ensures holds { (v : Sight) → AreSound v (sources_in (book_view book.old) names.now)
        → AreSettled (sources_in (book_view book.old) names.now) (held v) → Adds (S.told site.old) (S.told site.new)
        (Leads (anyhow (SparesFiles (sources_in (book_view book.old) names.now)))
        (HasFiles (sources_in (book_view book.old) names.now) (held v))
        (HoldsOnce (book_view book.old) (in_head_order (heads_of v 0 (sources_in (book_view book.old) names.now)))
        (in_order (found_in v (sources_in (book_view book.old) names.now))) result)) }
    ensures told { (stamped : List (List ℕ)) (v : Sight) → IsListed stamped names.now (book_view book.old) v
        → Adds (S.told site.old) (S.told site.new)
        (Leads (As stamped job) (AtJob stamped (λ u. u ≡ v)) (TookSo stamped v (book_view book.old) (book_view book.new) result)) }
    ensures shown { Adds (S.told site.old) (S.told site.new)
        (ShowsTaken (book_view book.old) (sources_in (book_view book.old) names.now) result) }
    ensures own { Adds (S.told site.old) (S.told site.new) (Every (IsOf MergesBy)) }
    ensures pieces { Adds (S.told site.old) (S.told site.new) (Every AsksInPieces) }
    ensures last { Adds (S.told site.old) (S.told site.new) (FailsLast result) }
    ensures cause { JobCause (S.fault_count site.old) (S.fault_count site.new) result }
{
    let files = sources(alloc, book, names)?;
    let heads = gather_found(alloc, site, who, files.as_slice())?;
    take_found(alloc, site, who, book, files.as_slice(), heads)
}

/// Takes what goes on, of the heads of all records in `files`, and publishes the book that says so. Where a record has another start
/// than its stream, it is `Damaged` at the first such one in order, and nothing is read or written.
fn take_found<S: Site>(
    alloc: Global,
    site: &mut S,
    who: &Who,
    book: &mut Book,
    files: &[Word],
    heads: Heads,
) -> Result<Taken, JobFault>
    requires { who.now ≡ job }
    ensures starts { OnOk result (HaveStartsIn (book_view book.old).ends (in_head_order heads)) }
    ensures other { (HaveStartsIn (book_view book.old).ends (in_head_order heads) → ⊥)
        → IfErr result (ToldOtherStart files.now (book_view book.old).ends (in_head_order heads))
        × (S.told site.new ≡ S.told site.old) × (book_view book.new ≡ book_view book.old) }
    ensures told { (stamped : List (List ℕ)) (v : Sight) (names : List (List ℕ)) → IsListed stamped names (book_view book.old) v
        → (files.now ≡ sources_in (book_view book.old) names) → (heads ≡ heads_of v 0 files.now)
        → Adds (S.told site.old) (S.told site.new)
        (Leads (As stamped job) (AtJob stamped (λ u. u ≡ v)) (TookSo stamped v (book_view book.old) (book_view book.new) result)) }
    ensures raw { (v : Sight) → AreSound v files.now → heads ≡ heads_of v 0 files.now
        → Adds (S.told site.old) (S.told site.new)
        (Leads (anyhow (SparesFiles files.now)) (HasFiles files.now (held v))
        (HoldsOnce (book_view book.old) (in_head_order heads) (in_order (found_in v files.now)) result)) }
    ensures spent { IfErr result (IfSpent (LacksOne (book_view book.old) heads)) }
    ensures shown { Adds (S.told site.old) (S.told site.new) (Shows (IsUnfit (book_view book.old).ends files.now heads) result) }
    ensures own { Adds (S.told site.old) (S.told site.new) (Every (IsOf MergesBy)) }
    ensures pieces { Adds (S.told site.old) (S.told site.new) (Every AsksInPieces) }
    ensures last { Adds (S.told site.old) (S.told site.new) (FailsLast result) }
    ensures cause { JobCause (S.fault_count site.old) (S.fault_count site.new) result }
{
    let mut heads = heads;
    let old = count_first(&heads);
    heads.sort(alloc)?;
    check_starts(alloc, book, files, &heads)?;
    let planned = plan_of(alloc, &heads, book)?;
    take_planned(alloc, site, who, book, files, &heads, old, &planned)
}

/// Sets aside what lies past the gaps of a plan over heads that stand in order, each chunk once, takes its parts, and publishes the
/// book that says so. `old` is how many records the aside segment has.
fn take_planned<S: Site>(
    alloc: Global,
    site: &mut S,
    who: &Who,
    book: &mut Book,
    files: &[Word],
    heads: &Heads,
    old: usize,
    planned: &Planned,
) -> Result<Taken, JobFault>
    requires job { who.now ≡ job }
    requires plan { IsPlanned (book_view book.old) heads.now planned.now }
    ensures told { (stamped : List (List ℕ)) (v : Sight) (names : List (List ℕ)) → IsListed stamped names (book_view book.old) v
        → AreSorted v (sources_in (book_view book.old) names) files.now heads.now old
        → Adds (S.told site.old) (S.told site.new)
        (Leads (As stamped job) (AtJob stamped (λ u. u ≡ v)) (TookSo stamped v (book_view book.old) (book_view book.new) result)) }
    ensures raw { (v : Sight) (found : List Chunk) → AreRecords v files.now heads.now (in_order found)
        → Adds (S.told site.old) (S.told site.new)
        (Leads (anyhow (SparesFiles files.now)) (HasFiles files.now (held v))
        (HoldsOnce (book_view book.old) heads.now (in_order found) result)) }
    ensures spent { IfErr result
        (IfSpent (LacksOver (book_view book.old) heads.now old planned.now)) }
    ensures shown { Adds (S.told site.old) (S.told site.new) (Shows (IsGoneIn files.now heads.now) result) }
    ensures own { Adds (S.told site.old) (S.told site.new) (Every (IsOf MergesBy)) }
    ensures pieces { Adds (S.told site.old) (S.told site.new) (Every AsksInPieces) }
    ensures last { Adds (S.told site.old) (S.told site.new) (FailsLast result) }
    ensures cause { JobCause (S.fault_count site.old) (S.fault_count site.new) result }
{
    let kept = kept_of(alloc, site, who, files, heads, planned.spans.as_slice())?;
    write_planned(
        alloc,
        site,
        who,
        book,
        files,
        heads,
        old,
        planned,
        kept.as_slice(),
    )
}

/// Takes the parts of a plan, sets aside what is kept, and publishes the book that says so.
fn write_planned<S: Site>(
    alloc: Global,
    site: &mut S,
    who: &Who,
    book: &mut Book,
    files: &[Word],
    heads: &Heads,
    old: usize,
    planned: &Planned,
    kept: &[Cut],
) -> Result<Taken, JobFault>
    requires job { who.now ≡ job }
    requires plan { IsPlanned (book_view book.old) heads.now planned.now }
    requires kept { AreWithin (length heads.now) kept.now }
    ensures told { (stamped : List (List ℕ)) (v : Sight) (names : List (List ℕ)) (at : IsListed stamped names (book_view book.old) v)
        → AreSorted v (sources_in (book_view book.old) names) files.now heads.now old
        → cut_chunks (in_order (found at.shows.listing)) kept.now ≡ kept_aside at.shows.listing
        → Each (IsFirst (in_order (found at.shows.listing)) planned.now.spans.items) kept.now
        → Adds (S.told site.old) (S.told site.new)
        (Leads (As stamped job) (AtJob stamped (λ u. u ≡ v)) (TookSo stamped v (book_view book.old) (book_view book.new) result)) }
    ensures count { IfOk result (λ t. t.held ≡ length kept.now) }
    ensures spent { IfErr result
        (IfSpent (LacksFor (book_view book.old) heads.now old planned.now.cuts kept.now)) }
    ensures shown { Adds (S.told site.old) (S.told site.new) (Shows (IsGoneIn files.now heads.now) result) }
    ensures own { Adds (S.told site.old) (S.told site.new) (Every (IsOf MergesBy)) }
    ensures pieces { Adds (S.told site.old) (S.told site.new) (Every AsksInPieces) }
    ensures last { Adds (S.told site.old) (S.told site.new) (FailsLast result) }
    ensures cause { JobCause (S.fault_count site.old) (S.fault_count site.new) result }
{
    let held = count_of(kept.len())?;
    let cuts = planned.cuts.as_slice();
    let changed = prepare(alloc, site, who, book, files, heads, old, cuts, kept)?;
    publish_if(alloc, site, who, book, changed)?;
    Ok(Taken {
        taken: planned.taken,
        held,
    })
}

/// Publishes the archive's next book where it has changed.
fn publish_if<S: Site>(
    alloc: Global,
    site: &mut S,
    who: &Who,
    book: &Book,
    changed: bool,
) -> Result<(), OutsideFault>
    requires { who.now ≡ job }
    ensures told { (stamped : List (List ℕ)) (v : Sight) → MayFollowIf stamped v (book_view book.now) changed
        → Adds (S.told site.old) (S.told site.new)
        (Leads (As stamped job) (AtJob stamped (λ u. u ≡ v)) (Published stamped ArchiveFolder v (book_view book.now) result)) }
    ensures own { Adds (S.told site.old) (S.told site.new) (Every (IsOf ReplacesBook)) }
    ensures last { Adds (S.told site.old) (S.told site.new) (LastFailed result) }
    ensures cause { OutsideCause (S.fault_count site.old) (S.fault_count site.new) result }
{
    if changed {
        return publish_next(alloc, site, who, book, "archive");
    }
    Ok(())
}

/// The plan over heads that stand in order. More bytes than 64 bits hold count as want of memory.
fn plan_of(alloc: Global, heads: &Heads, book: &Book) -> Result<Planned, NoMemory>
    ensures { IfOk result (λ planned. IsPlanned (book_view book.now) heads.now planned) }
{
    let known = known_ends(alloc, book)?;
    let spans = plan(alloc, heads, known.as_slice())?;
    planned_of(alloc, heads, spans)
}

/// The plan that has these spans. More bytes than 64 bits hold count as want of memory.
fn planned_of(alloc: Global, heads: &Heads, spans: Vec<Span>) -> Result<Planned, NoMemory>
    requires { All (λ s. s.end ≤ length heads.now) spans.items }
    ensures { IfOk result (IsCut heads.now spans.items) }
{
    let taken = taken(spans.as_slice()).ok_or(NoMemory)?;
    let cuts = cuts_of(alloc, heads, spans.as_slice())?;
    Ok(Planned { spans, taken, cuts })
}

/// Writes a segment of what is taken, where anything is, and one of what is set aside, where that isn't what the aside segment
/// has. `old` is how many records that has. It says whether the book has changed.
fn prepare<S: Site>(
    alloc: Global,
    site: &mut S,
    who: &Who,
    book: &mut Book,
    files: &[Word],
    heads: &Heads,
    old: usize,
    cuts: &[Cut],
    kept: &[Cut],
) -> Result<bool, JobFault>
    requires job { who.now ≡ job }
    requires cuts { AreWithin (length heads.now) cuts.now }
    requires kept { AreWithin (length heads.now) kept.now }
    ensures told { (stamped : List (List ℕ)) (v : Sight) (cs : List Chunk) → AreRecords v files.now heads.now cs
        → CanPrepare v (book_view book.old) files.now heads.now old kept.now (cut_chunks cs kept.now)
        → Adds (S.told site.old) (S.told site.new)
        (Leads (As stamped job) (AtJob stamped (λ u. u ≡ v)) (Prepared stamped v (book_view book.old) (book_view book.new)
        (cut_chunks cs cuts.now) (cut_chunks cs kept.now) (stays_aside (book_view book.old) heads.now old kept.now) result)) }
    ensures spent { IfErr result
        (IfSpent (LacksFor (book_view book.old) heads.now old cuts.now kept.now)) }
    ensures shown { Adds (S.told site.old) (S.told site.new) (Shows (IsGoneIn files.now heads.now) result) }
    ensures own { Adds (S.told site.old) (S.told site.new) (Every (IsOf MergesBy)) }
    ensures pieces { Adds (S.told site.old) (S.told site.new) (Every AsksInPieces) }
    ensures last { Adds (S.told site.old) (S.told site.new) (FailsLast result) }
    ensures cause { JobCause (S.fault_count site.old) (S.fault_count site.new) result }
{
    take_parts(alloc, site, who, book, files, heads, cuts)?;
    let changed = keep_aside(alloc, site, who, book, files, heads, old, kept)?;
    Ok(is_changed(cuts, changed))
}

/// Something was taken, or what is set aside has changed.
fn is_changed(cuts: &[Cut], aside: bool) -> bool
    ensures { result ≡ (not (length cuts.now == 0) || aside) }
{
    !cuts.is_empty() || aside
}

/// Writes a segment of what is taken, and the book has it; where that is nothing, nothing is written.
fn take_parts<S: Site>(
    alloc: Global,
    site: &mut S,
    who: &Who,
    book: &mut Book,
    files: &[Word],
    heads: &Heads,
    cuts: &[Cut],
) -> Result<(), JobFault>
    requires job { who.now ≡ job }
    requires cuts { AreWithin (length heads.now) cuts.now }
    ensures told { (stamped : List (List ℕ)) (v : Sight) (cs : List Chunk) → AreRecords v files.now heads.now cs
        → (own_book v ArchiveFolder ≡ book_view book.old) → IsFree v files.now (book_view book.old).next
        → Adds (S.told site.old) (S.told site.new)
        (Leads (As stamped job) (AtJob stamped (λ u. u ≡ v)) (PartsTaken stamped v (book_view book.old) (book_view book.new)
        (cut_chunks cs cuts.now) result)) }
    ensures none { cuts.now ≡ [] → book_view book.new ≡ book_view book.old }
    ensures next { OnOk result ((book_view book.new).next
        ≡ (book_view book.old).next + number_for cuts.now) }
    ensures aside { (book_view book.new).aside ≡ (book_view book.old).aside }
    ensures spent { IfErr result (IfSpent ((cuts.now ≡ [] → ⊥) × IsAtLast (book_view book.old))) }
    ensures shown { Adds (S.told site.old) (S.told site.new) (Shows (IsGoneIn files.now heads.now) result) }
    ensures own { Adds (S.told site.old) (S.told site.new) (Every (IsOf MergesBy)) }
    ensures pieces { Adds (S.told site.old) (S.told site.new) (Every AsksInPieces) }
    ensures last { Adds (S.told site.old) (S.told site.new) (FailsLast result) }
    ensures cause { JobCause (S.fault_count site.old) (S.fault_count site.new) result }
{
    if cuts.is_empty() {
        return Ok(());
    }
    add_segment(alloc, site, who, book, files, heads, cuts, Purpose::Parts)
}

/// Writes the segment of what is set aside, where that isn't what the aside segment has, and the book names it; where it is nothing,
/// the book names none. It says whether the book has changed.
fn keep_aside<S: Site>(
    alloc: Global,
    site: &mut S,
    who: &Who,
    book: &mut Book,
    files: &[Word],
    heads: &Heads,
    old: usize,
    kept: &[Cut],
) -> Result<bool, JobFault>
    requires job { who.now ≡ job }
    requires kept { AreWithin (length heads.now) kept.now }
    ensures told { (stamped : List (List ℕ)) (v : Sight) (cs : List Chunk) → AreRecords v files.now heads.now cs
        → IsFree v files.now (book_view book.old).next
        → IsWhole v (book_view book.old) heads.now old kept.now (cut_chunks cs kept.now)
        → Adds (S.told site.old) (S.told site.new)
        (Leads (As stamped job) (AtJob stamped (λ u. u ≡ v)) (AsideKept stamped v (book_view book.old) (book_view book.new)
        (cut_chunks cs kept.now) (stays_aside (book_view book.old) heads.now old kept.now) result)) }
    ensures stays { IsTrue (stays_aside (book_view book.old) heads.now old kept.now)
        → (result ≡ Ok false) × (book_view book.new ≡ book_view book.old) × (S.told site.new ≡ S.told site.old) }
    ensures spent { IfErr result
        (IfSpent ((kept.now ≡ [] → ⊥)
        × (stays_aside (book_view book.old) heads.now old kept.now ≡ false)
        × IsAtLast (book_view book.old))) }
    ensures shown { Adds (S.told site.old) (S.told site.new) (Shows (IsGoneIn files.now heads.now) result) }
    ensures own { Adds (S.told site.old) (S.told site.new) (Every (IsOf MergesBy)) }
    ensures pieces { Adds (S.told site.old) (S.told site.new) (Every AsksInPieces) }
    ensures last { Adds (S.told site.old) (S.told site.new) (FailsLast result) }
    ensures cause { JobCause (S.fault_count site.old) (S.fault_count site.new) result }
{
    if stays(book, heads, old, kept) {
        return Ok(false);
    }
    if kept.is_empty() {
        book.aside = None;
        return Ok(true);
    }
    add_segment(alloc, site, who, book, files, heads, kept, Purpose::Aside)?;
    Ok(true)
}

/// What is kept is what the aside segment has, or there is none of both.
fn stays(book: &Book, heads: &Heads, old: usize, kept: &[Cut]) -> bool
    requires { AreWithin (length heads.now) kept.now }
    ensures { result ≡ stays_aside (book_view book.now) heads.now old kept.now }
{
    if kept.is_empty() {
        return book.aside.is_none();
    }
    book.aside.is_some() && is_old_aside(heads, old, kept)
}
