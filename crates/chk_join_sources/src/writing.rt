//! The segment with the chosen records is written.

ghost use Rattle.std.specs.Prelude.{◌≡◌, ◌≤◌, ℕ, List, flat_map};
ghost use Rattle.chk_chunk.specs.Keys.{record_limit};
ghost use Rattle.chk_site.specs.Files.{Files};
ghost use Rattle.chk_site.specs.History.{Every};
ghost use Rattle.chk_site.specs.Site.{Adds};
ghost use Rattle.chk_site.specs.Runs.{anyhow, Leads};
ghost use Rattle.chk_world.specs.Sight.{job};
ghost use Rattle.chk_world.specs.JobSteps.{IsOf, SparesFile};
ghost use Rattle.chk_world.proofs.Each.{Each};
ghost use Rattle.chk_record_index.specs.Faults.{JobCause, FailsLast};
ghost use Rattle.chk_record_index.specs.Pieces.{AsksInPieces};
ghost use Rattle.chk_book.specs.Books.{book_view};
ghost use Rattle.chk_book.specs.Causes.{SpentBook};
ghost use Rattle.chk_book.specs.Loaded.{book_result};
ghost use Rattle.chk_record_reader.specs.Segments.{HasFiles, AreSettled};
ghost use Rattle.chk_record_reader.specs.Merging.{SparesBoth, AreApart, bare_book, merged_result};
ghost use Rattle.chk_join_sources.specs.Comparing.{IsSide};
ghost use Rattle.chk_join_sources.specs.Standing.{chosen_heads, WroteCopies};
ghost use Rattle.chk_join_sources.specs.Copying.{joined_segment, chosen_chunks, FitsIn, WroteChosen, Worked, Copies};

use crate::copying::copy_all;
use crate::{Choice, Side};
use chk_book::{Book, Ends, Segments};
use chk_record_index::JobFault;
use chk_site::{Site, Who};
use std::alloc::Global;

/// Writes the chosen records of both sides, in turn and unchanged, as the segment of `joined` of this number, synced, and gives a
/// book that names it alone and isn't published. `Spent` comes exactly where the number is 2^63 - 1, before any call is made.
///
/// Each record is read once, in reads of at most 1,048,576 bytes, and written once, by appends of about 1,048,576 bytes. Held are
/// such a piece of each side and of the segment.
pub fn write_chosen<S: Site>(
    alloc: Global,
    site: &mut S,
    who: &Who,
    next: u64,
    left: &Side<'_>,
    right: &Side<'_>,
    choices: &[Choice],
) -> Result<Book, JobFault>
    requires job { who.now ≡ job }
    requires fits { Each (FitsIn left.now right.now) choices.now }
    ensures raw { (most : ℕ) (all : List (List ℕ)) (held : Files) → most ≤ record_limit → AreSettled all held
        → AreApart all (joined_segment next) → IsSide most all held left.now → IsSide most all held right.now
        → Adds (S.told site.old) (S.told site.new)
        (Leads (anyhow (SparesBoth all (joined_segment next))) (HasFiles all held)
        (WroteChosen all held next (flat_map (chosen_chunks left.now right.now held) choices.now) (book_result result))) }
    ensures stands { Adds (S.told site.old) (S.told site.new)
        (Leads (anyhow (SparesFile (joined_segment next))) (λ history. Unit {0})
        (WroteCopies next (flat_map (chosen_heads left.now right.now) choices.now) (book_result result))) }
    ensures own { Adds (S.told site.old) (S.told site.new) (Every (IsOf (Copies next))) }
    ensures pieces { Adds (S.told site.old) (S.told site.new) (Every AsksInPieces) }
    ensures spent { SpentBook (bare_book next) result }
    ensures last { Adds (S.told site.old) (S.told site.new) (FailsLast result) }
    ensures cause { JobCause (S.fault_count site.old) (S.fault_count site.new) result }
{
    let mut book = Book {
        next,
        segments: Segments::new(alloc),
        ends: Ends::new(alloc),
        aside: None,
    };
    write_segment(&mut book, alloc, site, who, left, right, choices)?;
    Ok(book)
}

/// Writes the chosen records as the next segment of a book that names none, and enters it.
fn write_segment<S: Site>(
    book: &mut Book,
    alloc: Global,
    site: &mut S,
    who: &Who,
    left: &Side<'_>,
    right: &Side<'_>,
    choices: &[Choice],
) -> Result<(), JobFault>
    requires job { who.now ≡ job }
    requires bare { book_view book.old ≡ bare_book book.old.next }
    requires fits { Each (FitsIn left.now right.now) choices.now }
    ensures raw { (most : ℕ) (all : List (List ℕ)) (held : Files) → most ≤ record_limit → AreSettled all held
        → AreApart all (joined_segment book.old.next) → IsSide most all held left.now → IsSide most all held right.now
        → Adds (S.told site.old) (S.told site.new)
        (Leads (anyhow (SparesBoth all (joined_segment book.old.next))) (HasFiles all held)
        (WroteChosen all held book.old.next (flat_map (chosen_chunks left.now right.now held) choices.now)
        (merged_result (book_view book.new) result))) }
    ensures stands { Adds (S.told site.old) (S.told site.new)
        (Leads (anyhow (SparesFile (joined_segment book.old.next))) (λ history. Unit {0})
        (WroteCopies book.old.next (flat_map (chosen_heads left.now right.now) choices.now)
        (merged_result (book_view book.new) result))) }
    ensures works { Adds (S.told site.old) (S.told site.new) (Worked (Copies book.old.next) result) }
    ensures spent { SpentBook (bare_book book.old.next) result }
    ensures cause { JobCause (S.fault_count site.old) (S.fault_count site.new) result }
{
    let mut segmenter = book.begin_segment(alloc, site, who, "joined")?;
    copy_all(alloc, site, who, &mut segmenter, left, right, choices)?;
    segmenter.finish(alloc, site, book)
}
