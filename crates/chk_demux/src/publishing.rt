//! The new records' segment is finished, and the book that names it is published.

ghost use Rattle.std.specs.Prelude.{◌≡◌, ℕ, List, Some, IfErr};
ghost use Rattle.chk_chunk.specs.Keys.{Chunk};
ghost use Rattle.chk_site.specs.Site.{Adds};
ghost use Rattle.chk_site.specs.Runs.{Leads};
ghost use Rattle.chk_world.specs.Places.{As};
ghost use Rattle.chk_world.specs.Sight.{job, Sight, AtJob};
ghost use Rattle.chk_record_index.specs.Faults.{JobCause, IsOfWrite};
ghost use Rattle.chk_book.specs.Books.{book_view};
ghost use Rattle.chk_demux.specs.Demuxed.{WritesBook};
ghost use Rattle.chk_demux.specs.Working.{Worked, EndsSo};
ghost use Rattle.chk_demux.specs.Writes.{IsFree, IsWriter, IsForDemux, SoFar, IsSoFar};
ghost use Rattle.chk_demux.specs.Entering.{MayEnter, Entered};

use chk_archive_parts::publish_next;
use chk_book::{Book, Segmenter};
use chk_record_index::JobFault;
use chk_site::{Site, Who};
use std::alloc::Global;

/// Finishes the segment and publishes the book that has it too, where there is a segment. After a refusal nothing is said of `book`.
/// It costs seven calls.
pub(crate) fn enter<S: Site>(
    alloc: Global,
    site: &mut S,
    who: &Who,
    book: &mut Book,
    segmenter: Option<Segmenter>,
) -> Result<(), JobFault>
    requires job { who.now ≡ job }
    requires writer { IsWriter (book_view book.old).next segmenter }
    ensures told { (stamped : List (List ℕ)) (v : Sight) (outs : List Chunk) → IsFree v (book_view book.old).next
        → MayEnter stamped v (book_view book.old) outs → Adds (S.told site.old) (S.told site.new)
        (Leads (As stamped job) (AtJob stamped (SoFar v outs segmenter))
        (EndsSo stamped (λ t u. Entered v (book_view book.old) outs segmenter u) result)) }
    ensures only { IfErr result IsOfWrite }
    ensures works { Adds (S.told site.old) (S.told site.new) (Worked (WritesBook (book_view book.old).next) result) }
    ensures cause { JobCause (S.fault_count site.old) (S.fault_count site.new) result }
{
    match segmenter {
        Some(segmenter) => enter_segment(alloc, site, who, book, segmenter),
        None => Ok(()),
    }
}

/// Finishes the segment and publishes the book that has it too.
fn enter_segment<S: Site>(
    alloc: Global,
    site: &mut S,
    who: &Who,
    book: &mut Book,
    segmenter: Segmenter,
) -> Result<(), JobFault>
    requires job { who.now ≡ job }
    requires writer { IsForDemux (book_view book.old).next segmenter }
    ensures told { (stamped : List (List ℕ)) (v : Sight) (outs : List Chunk) → IsFree v (book_view book.old).next
        → MayEnter stamped v (book_view book.old) outs → Adds (S.told site.old) (S.told site.new)
        (Leads (As stamped job) (AtJob stamped (IsSoFar v outs segmenter))
        (EndsSo stamped (λ t u. Entered v (book_view book.old) outs (Some segmenter) u) result)) }
    ensures only { IfErr result IsOfWrite }
    ensures works { Adds (S.told site.old) (S.told site.new) (Worked (WritesBook (book_view book.old).next) result) }
    ensures cause { JobCause (S.fault_count site.old) (S.fault_count site.new) result }
{
    segmenter.finish(alloc, site, book)?;
    publish_next(alloc, site, who, book, "demux")?;
    Ok(())
}
