//! The join of two archives, up to the book that is to be published.

ghost use Rattle.std.specs.Prelude.{◌≡◌, ◌≤◌, ℕ, List, Contains, map, flat_map, IsTrue, IfOk};
ghost use Rattle.std.specs.Prelude.{codes};
ghost use Rattle.chk_site.specs.Files.{Files};
ghost use Rattle.chk_site.specs.Site.{Adds};
ghost use Rattle.chk_site.specs.Runs.{anyhow, Leads};
ghost use Rattle.chk_bytes.specs.Stems.{is_count};
ghost use Rattle.chk_replace.specs.Replace.{LeavesFile};
ghost use Rattle.chk_chunk.specs.Keys.{chunk_limit, record_limit};
ghost use Rattle.chk_world.specs.Places.{As};
ghost use Rattle.chk_world.specs.Rules.{Legal};
ghost use Rattle.chk_world.specs.Sight.{job};
ghost use Rattle.chk_world.specs.JobSteps.{SparesFile};
ghost use Rattle.chk_world.proofs.Each.{Each};
ghost use Rattle.chk_record_index.specs.Faults.{JobCause};
ghost use Rattle.chk_book.specs.Books.{book_view};
ghost use Rattle.chk_book.specs.Folders.{most_in};
ghost use Rattle.chk_book.specs.Views.{end_view};
ghost use Rattle.chk_book.specs.Loaded.{book_result};
ghost use Rattle.chk_record_reader.specs.Segments.{names_of, HasFiles, AreSettled};
ghost use Rattle.chk_record_reader.specs.Merging.{SparesBoth, AreApart};
ghost use Rattle.chk_join_sources.specs.Reading.{AreAmong};
ghost use Rattle.chk_join_sources.specs.Comparing.{IsSide};
ghost use Rattle.chk_join_sources.specs.Pairs.{pairs_of};
ghost use Rattle.chk_join_sources.specs.Choosing.{IsSideInOrder};
ghost use Rattle.chk_join_sources.specs.Copying.{joined_segment, chosen_chunks, FitsIn, Copies};
ghost use Rattle.chk_join.specs.Working.{Worked, PreparesBy, Prepares};
ghost use Rattle.chk_join.specs.Cleaned.{GoneAtOk};
ghost use Rattle.chk_join.specs.Names.{IsStrayNumber};
ghost use Rattle.chk_join.specs.Joined.{can_join, joined_folder, folder_book, reads_of};
ghost use Rattle.chk_join.specs.Joined.{LeavesFolders};
ghost use Rattle.chk_join.specs.Preparing.{IsCounted, SpentPlan, WrotePlan, StoodPlan, TookPlan};
ghost use Rattle.chk_join.specs.Preparing.{StandsReady, HasOrder, IsGathered, JoinedSides};
ghost use Rattle.chk_join.specs.Preparing.{JoinedBooks, Covers, IsFolderBook, PreparedFrom};
ghost use Rattle.chk_join.specs.Preparing.{PreparedSo, PreparedLegal};

use crate::beginning::begin;
use crate::planned::runs_on;
use crate::report::JoinReport;
use crate::tidying::tidy;
use chk_book::{Book, End, Ends, Segments, load_book};
use chk_bytes::NoMemory;
use chk_join_sources::{Choice, Chosen, Difference, Plan, Side, choose, sound_heads, write_chosen};
use chk_record_index::JobFault;
use chk_record_reader::segment_names;
use chk_site::{Site, Who};
use std::alloc::Global;

/// What a join comes to before its book is published.
#[derive(Drop)]
pub(crate) enum Prepared {
    Ready { book: Book, report: JoinReport },
    Differs { found: Difference },
}

/// The book of the joined archive but for its ends: it names the segment with the chosen records alone, or none where there are
/// no streams. Records that don't run as the ends say count as want of memory.
fn write_plan<S: Site>(
    alloc: Global,
    site: &mut S,
    who: &Who,
    next: u64,
    left: &Side<'_>,
    right: &Side<'_>,
    choices: &[Choice],
    ends: &[End],
) -> Result<Book, JobFault>
    requires job { who.now ≡ job }
    requires fits { Each (FitsIn left.now right.now) choices.now }
    ensures raw { (most : ℕ) (all : List (List ℕ)) (held : Files) → most ≤ record_limit → AreSettled all held
        → AreApart all (joined_segment next) → IsSide most all held left.now → IsSide most all held right.now
        → Adds (S.told site.old) (S.told site.new)
        (Leads (anyhow (SparesBoth all (joined_segment next))) (HasFiles all held)
        (WrotePlan next (flat_map (chosen_chunks left.now right.now held) choices.now) (map end_view ends.now)
        (book_result result))) }
    ensures stands { Adds (S.told site.old) (S.told site.new)
        (Leads (anyhow (SparesFile (joined_segment next))) (λ history. Unit {0})
        (StoodPlan next (map end_view ends.now) (book_result result))) }
    ensures spent { SpentPlan next (map end_view ends.now) result }
    ensures works { Adds (S.told site.old) (S.told site.new) (Worked (Copies next) result) }
    ensures cause { JobCause (S.fault_count site.old) (S.fault_count site.new) result }
{
    if !runs_on(left, right, choices, ends) {
        return Err(JobFault::NoMemory);
    }
    if choices.is_empty() {
        return Ok(Book {
            next,
            segments: Segments::new(alloc),
            ends: Ends::new(alloc),
            aside: None,
        });
    }
    write_chosen(alloc, site, who, next, left, right, choices)
}

/// Writes the chosen records, and gives the book that names them.
fn take_plan<S: Site>(
    alloc: Global,
    site: &mut S,
    who: &Who,
    next: u64,
    left: &Side<'_>,
    right: &Side<'_>,
    plan: Plan,
) -> Result<Prepared, JobFault>
    requires job { who.now ≡ job }
    requires fits { Each (FitsIn left.now right.now) plan.choices.items }
    ensures raw { (most : ℕ) (all : List (List ℕ)) (held : Files) → most ≤ record_limit → AreSettled all held
        → AreApart all (joined_segment next) → IsSide most all held left.now → IsSide most all held right.now
        → Adds (S.told site.old) (S.told site.new)
        (Leads (anyhow (SparesBoth all (joined_segment next))) (HasFiles all held)
        (TookPlan next (flat_map (chosen_chunks left.now right.now held) plan.choices.items) plan result)) }
    ensures stands { Adds (S.told site.old) (S.told site.new)
        (Leads (anyhow (SparesFile (joined_segment next))) (λ history. Unit {0}) (StandsReady next result)) }
    ensures counted { IfOk result IsCounted }
    ensures spent { SpentPlan next (map end_view plan.ends) result }
    ensures works { Adds (S.told site.old) (S.told site.new) (Worked (Copies next) result) }
    ensures cause { JobCause (S.fault_count site.old) (S.fault_count site.new) result }
{
    let choices = plan.choices.as_slice();
    let ends = plan.ends.as_slice();
    let streams = u32::try_from(ends.len()).map_err(|_| NoMemory)?;
    let mut book = write_plan(alloc, site, who, next, left, right, choices, ends)?;
    let bytes = plan.bytes;
    book.ends = plan.ends;
    Ok(Prepared::Ready {
        book,
        report: JoinReport { streams, bytes },
    })
}

/// Joins the archives of both sides, or says where they differ.
fn join_sides<S: Site>(
    alloc: Global,
    site: &mut S,
    who: &Who,
    next: u64,
    lefts: &[End],
    rights: &[End],
    left: &Side<'_>,
    right: &Side<'_>,
) -> Result<Prepared, JobFault>
    requires job { who.now ≡ job }
    ensures raw { (most : ℕ) (all : List (List ℕ)) (held : Files) → most ≤ record_limit → AreSettled all held
        → AreApart all (joined_segment next) → IsSideInOrder most all held left.now → IsSideInOrder most all held right.now
        → Adds (S.told site.old) (S.told site.new)
        (Leads (anyhow (SparesBoth all (joined_segment next))) (HasFiles all held)
        (JoinedSides held next left.now right.now (pairs_of (map end_view lefts.now) (map end_view rights.now)) result)) }
    ensures stands { Adds (S.told site.old) (S.told site.new)
        (Leads (anyhow (SparesFile (joined_segment next))) (λ history. Unit {0}) (StandsReady next result)) }
    ensures counted { IfOk result IsCounted }
    ensures works { Adds (S.told site.old) (S.told site.new) (Worked (Copies next) result) }
    ensures cause { JobCause (S.fault_count site.old) (S.fault_count site.new) result }
{
    match choose(alloc, site, who, lefts, rights, left, right) {
        Ok(Chosen::Agree(plan)) => take_plan(alloc, site, who, next, left, right, plan),
        Ok(Chosen::Differ(found)) => Ok(Prepared::Differs { found }),
        Err(fault) => Err(fault),
    }
}

/// Gathers the heads of the right archive, and joins both.
fn join_left<S: Site>(
    alloc: Global,
    site: &mut S,
    who: &Who,
    next: u64,
    right: &str,
    lefts: &Book,
    rights: &Book,
    side: &Side<'_>,
) -> Result<Prepared, JobFault>
    requires job { who.now ≡ job }
    ensures raw { (all : List (List ℕ)) (held : Files) (left : List ℕ) → AreSettled all held
        → AreApart all (joined_segment next) → AreAmong all (names_of left (book_view lefts.now))
        → AreAmong all (names_of right.now (book_view rights.now)) → most_in left ≡ chunk_limit → most_in right.now ≡ chunk_limit
        → HasOrder (book_view lefts.now) → HasOrder (book_view rights.now) → IsGathered left (book_view lefts.now) held side.now
        → Adds (S.told site.old) (S.told site.new)
        (Leads (anyhow (SparesBoth all (joined_segment next))) (HasFiles all held)
        (JoinedBooks held left (book_view lefts.now) right.now (book_view rights.now) next result)) }
    ensures stands { Adds (S.told site.old) (S.told site.new)
        (Leads (anyhow (SparesFile (joined_segment next))) (λ history. Unit {0}) (StandsReady next result)) }
    ensures counted { IfOk result IsCounted }
    ensures works { Adds (S.told site.old) (S.told site.new) (Worked (Copies next) result) }
    ensures cause { JobCause (S.fault_count site.old) (S.fault_count site.new) result }
{
    let names = segment_names(alloc, right, rights)?;
    let heads = sound_heads(rights, alloc, site, who, right, names.as_slice())?;
    let other = Side {
        names: names.as_slice(),
        heads: &heads,
    };
    join_sides(
        alloc,
        site,
        who,
        next,
        lefts.ends.as_slice(),
        rights.ends.as_slice(),
        side,
        &other,
    )
}

/// Gathers the heads of both archives, and joins them.
fn join_books<S: Site>(
    alloc: Global,
    site: &mut S,
    who: &Who,
    next: u64,
    left: &str,
    right: &str,
    lefts: &Book,
    rights: &Book,
) -> Result<Prepared, JobFault>
    requires job { who.now ≡ job }
    ensures raw { (all : List (List ℕ)) (held : Files) → AreSettled all held
        → AreApart all (joined_segment next) → AreAmong all (names_of left.now (book_view lefts.now))
        → AreAmong all (names_of right.now (book_view rights.now)) → most_in left.now ≡ chunk_limit
        → most_in right.now ≡ chunk_limit → HasOrder (book_view lefts.now) → HasOrder (book_view rights.now)
        → Adds (S.told site.old) (S.told site.new)
        (Leads (anyhow (SparesBoth all (joined_segment next))) (HasFiles all held)
        (JoinedBooks held left.now (book_view lefts.now) right.now (book_view rights.now) next result)) }
    ensures stands { Adds (S.told site.old) (S.told site.new)
        (Leads (anyhow (SparesFile (joined_segment next))) (λ history. Unit {0}) (StandsReady next result)) }
    ensures counted { IfOk result IsCounted }
    ensures works { Adds (S.told site.old) (S.told site.new) (Worked (Copies next) result) }
    ensures cause { JobCause (S.fault_count site.old) (S.fault_count site.new) result }
{
    let names = segment_names(alloc, left, lefts)?;
    let heads = sound_heads(lefts, alloc, site, who, left, names.as_slice())?;
    let side = Side {
        names: names.as_slice(),
        heads: &heads,
    };
    join_left(alloc, site, who, next, right, lefts, rights, &side)
}

/// Tidies the folder `joined`, and joins both archives.
fn join_tidied<S: Site>(
    alloc: Global,
    site: &mut S,
    who: &Who,
    left: &str,
    right: &str,
    joined: &Book,
    lefts: &Book,
    rights: &Book,
) -> Result<Prepared, JobFault>
    requires job { who.now ≡ job }
    requires left { IsTrue (can_join left.now) }
    requires right { IsTrue (can_join right.now) }
    ensures raw { (all : List (List ℕ)) (held : Files) → Covers all held left.now right.now
        → IsFolderBook held left.now (book_view lefts.now) → IsFolderBook held right.now (book_view rights.now)
        → Adds (S.told site.old) (S.told site.new)
        (Leads (anyhow (SparesBoth all (joined_segment joined.now.next))) (HasFiles all held)
        (PreparedFrom held left.now right.now joined.now.next result)) }
    ensures stands { Adds (S.told site.old) (S.told site.new)
        (Leads (anyhow (SparesFile (joined_segment joined.now.next))) (λ history. Unit {0}) (StandsReady joined.now.next result)) }
    ensures clean { (k : ℕ) → IsStrayNumber (book_view joined.now) k → IsTrue (is_count joined.now.next)
        → (k ≡ joined.now.next → ⊥) → Adds (S.told site.old) (S.told site.new)
        (Leads (anyhow (LeavesFile (joined_segment k))) (λ history. Unit {0}) (GoneAtOk k result)) }
    ensures counted { IfOk result IsCounted }
    ensures works { Adds (S.told site.old) (S.told site.new) (Worked (PreparesBy (book_view joined.now)) result) }
    ensures cause { JobCause (S.fault_count site.old) (S.fault_count site.new) result }
{
    match tidy(alloc, site, who, joined) {
        Ok(()) => join_books(alloc, site, who, joined.next, left, right, lefts, rights),
        Err(fault) => Err(JobFault::from(fault)),
    }
}

/// Loads the book of the right archive, and joins both.
fn load_right<S: Site>(
    alloc: Global,
    site: &mut S,
    who: &Who,
    left: &str,
    right: &str,
    joined: &Book,
    lefts: &Book,
) -> Result<Prepared, JobFault>
    requires job { who.now ≡ job }
    requires left { IsTrue (can_join left.now) }
    requires right { IsTrue (can_join right.now) }
    ensures raw { (all : List (List ℕ)) (held : Files) → Covers all held left.now right.now
        → IsFolderBook held left.now (book_view lefts.now)
        → Adds (S.told site.old) (S.told site.new)
        (Leads (anyhow (SparesBoth all (joined_segment joined.now.next))) (HasFiles all held)
        (PreparedFrom held left.now right.now joined.now.next result)) }
    ensures stands { Adds (S.told site.old) (S.told site.new)
        (Leads (anyhow (SparesFile (joined_segment joined.now.next))) (λ history. Unit {0}) (StandsReady joined.now.next result)) }
    ensures clean { (k : ℕ) → IsStrayNumber (book_view joined.now) k → IsTrue (is_count joined.now.next)
        → (k ≡ joined.now.next → ⊥) → Adds (S.told site.old) (S.told site.new)
        (Leads (anyhow (LeavesFile (joined_segment k))) (λ history. Unit {0}) (GoneAtOk k result)) }
    ensures counted { IfOk result IsCounted }
    ensures works { Adds (S.told site.old) (S.told site.new) (Worked (PreparesBy (book_view joined.now)) result) }
    ensures cause { JobCause (S.fault_count site.old) (S.fault_count site.new) result }
{
    match load_book(alloc, site, who, right) {
        Ok(rights) => join_tidied(alloc, site, who, left, right, joined, lefts, &rights),
        Err(fault) => Err(fault),
    }
}

/// Loads the books of both archives, and joins them.
fn load_left<S: Site>(
    alloc: Global,
    site: &mut S,
    who: &Who,
    left: &str,
    right: &str,
    joined: &Book,
) -> Result<Prepared, JobFault>
    requires job { who.now ≡ job }
    requires left { IsTrue (can_join left.now) }
    requires right { IsTrue (can_join right.now) }
    ensures raw { (all : List (List ℕ)) (held : Files) → Covers all held left.now right.now
        → Adds (S.told site.old) (S.told site.new)
        (Leads (anyhow (SparesBoth all (joined_segment joined.now.next))) (HasFiles all held)
        (PreparedFrom held left.now right.now joined.now.next result)) }
    ensures stands { Adds (S.told site.old) (S.told site.new)
        (Leads (anyhow (SparesFile (joined_segment joined.now.next))) (λ history. Unit {0}) (StandsReady joined.now.next result)) }
    ensures clean { (k : ℕ) → IsStrayNumber (book_view joined.now) k → IsTrue (is_count joined.now.next)
        → (k ≡ joined.now.next → ⊥) → Adds (S.told site.old) (S.told site.new)
        (Leads (anyhow (LeavesFile (joined_segment k))) (λ history. Unit {0}) (GoneAtOk k result)) }
    ensures counted { IfOk result IsCounted }
    ensures works { Adds (S.told site.old) (S.told site.new) (Worked (PreparesBy (book_view joined.now)) result) }
    ensures cause { JobCause (S.fault_count site.old) (S.fault_count site.new) result }
{
    match load_book(alloc, site, who, left) {
        Ok(lefts) => load_right(alloc, site, who, left, right, joined, &lefts),
        Err(fault) => Err(fault),
    }
}

/// Does all of a join but for the publishing.
pub(crate) fn prepare<S: Site>(
    alloc: Global,
    site: &mut S,
    who: &Who,
    left: &str,
    right: &str,
) -> Result<Prepared, JobFault>
    requires job { who.now ≡ job }
    requires left { IsTrue (can_join left.now) }
    requires right { IsTrue (can_join right.now) }
    ensures told { (stamped : List (List ℕ)) → Adds (S.told site.old) (S.told site.new)
        (Leads (As stamped job) (Legal stamped) (PreparedLegal stamped result)) }
    ensures clean { (held : Files) (k : ℕ) → AreSettled (reads_of held left.now right.now) held
        → IsStrayNumber (folder_book held joined_folder) k → (k ≡ (folder_book held joined_folder).next → ⊥)
        → Adds (S.told site.old) (S.told site.new) (Leads (anyhow (LeavesFolders left.now right.now))
        (HasFiles (reads_of held left.now right.now) held) (GoneAtOk k result)) }
    ensures raw { (held : Files) → AreSettled (reads_of held left.now right.now) held → Adds (S.told site.old) (S.told site.new)
        (Leads (anyhow (LeavesFolders left.now right.now)) (HasFiles (reads_of held left.now right.now) held)
        (PreparedSo held left.now right.now result)) }
    ensures counted { IfOk result IsCounted }
    ensures works { Adds (S.told site.old) (S.told site.new) (Worked (Prepares) result) }
    ensures cause { JobCause (S.fault_count site.old) (S.fault_count site.new) result }
{
    match begin(alloc, site, who) {
        Ok(joined) => load_left(alloc, site, who, left, right, &joined),
        Err(fault) => Err(fault),
    }
}
