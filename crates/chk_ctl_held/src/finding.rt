//! The chunks that are set aside.

ghost use Rattle.std.specs.Prelude.{◌≡◌, option_map, IsTrue, IfErr, IfOk};
ghost use Rattle.chk_site.specs.History.{Every};
ghost use Rattle.chk_site.specs.Site.{Adds};
ghost use Rattle.chk_world.specs.Sight.{job};
ghost use Rattle.chk_world.specs.JobSteps.{IsOf, ReadsFile};
ghost use Rattle.chk_record_index.specs.Faults.{JobCause, FailsLast, IsOfRead};
ghost use Rattle.chk_book.specs.Folders.{is_folder};
ghost use Rattle.chk_book.specs.Views.{segment_view};
ghost use Rattle.chk_ctl_held.specs.Finding.{ShowsAside, ShowsSegment, FoundWaiting, FoundAgain};
ghost use Rattle.chk_ctl_held.specs.Finding.{HasDamage};
ghost use Rattle.chk_ctl_held.specs.Order.{StreamsRise};

use chk_book::{Book, Segment, load_book, segment_name};
use chk_bytes::{NoMemory, Word};
use chk_chunk::CHUNK_BYTES;
use chk_record_index::{Heads, JobFault};
use chk_site::{Site, Who};
use std::alloc::Global;

/// A folder's book, and the heads of the chunks that it sets aside, in order: by stream, then by
/// first offset and by sequence id.
#[derive(Debug, Drop)]
pub struct Waiting {
    pub book: Book,
    pub heads: Heads,
}

/// The folder's book and the heads of the chunks in its aside segment; no heads where it has no
/// such segment, and the empty book where there is none.
///
/// `Damaged` comes with the name and the place of what was found first: of the book's first wrong
/// field, or of the aside segment's place from which on it isn't one of chunks, which is 0 where
/// it isn't there. Where a job replaces the segment meanwhile a look may miss it, so damage counts
/// only where a second look at once finds some, and that is told. `Spent` never comes.
///
/// A look costs the reads of the book and of the aside segment, in pieces of at most 1,048,576
/// bytes; most data of long chunks isn't read. Held are the book, 32 bytes for a chunk, and one
/// piece.
pub fn find_waiting<S: Site>(
    alloc: Global,
    site: &mut S,
    who: &Who,
    folder: &str,
) -> Result<Waiting, JobFault>
    requires job { who.now ≡ job }
    requires folder { IsTrue (is_folder folder.now) }
    ensures told { FoundAgain folder.now result (S.told site.old) (S.told site.new) }
    ensures own { Adds (S.told site.old) (S.told site.new) (Every (IsOf ReadsFile)) }
    ensures only { IfErr result IsOfRead }
    ensures last { Adds (S.told site.old) (S.told site.new) (FailsLast result) }
    ensures order { IfOk result (λ w. StreamsRise w.heads) }
    ensures cause { JobCause (S.fault_count site.old) (S.fault_count site.new) result }
{
    let given = find_once(alloc, site, who, folder);
    if !is_damaged(&given) {
        return given;
    }
    find_once(alloc, site, who, folder)
}

/// Damage was found.
fn is_damaged(given: &Result<Waiting, JobFault>) -> bool
    ensures { HasDamage result given.now }
{
    matches!(given, Err(JobFault::Damaged { .. }))
}

/// One look at the folder.
fn find_once<S: Site>(
    alloc: Global,
    site: &mut S,
    who: &Who,
    folder: &str,
) -> Result<Waiting, JobFault>
    requires job { who.now ≡ job }
    requires folder { IsTrue (is_folder folder.now) }
    ensures told { FoundWaiting folder.now result (S.told site.old) (S.told site.new) }
    ensures own { Adds (S.told site.old) (S.told site.new) (Every (IsOf ReadsFile)) }
    ensures only { IfErr result IsOfRead }
    ensures last { Adds (S.told site.old) (S.told site.new) (FailsLast result) }
    ensures order { IfOk result (λ w. StreamsRise w.heads) }
    ensures cause { JobCause (S.fault_count site.old) (S.fault_count site.new) result }
{
    match load_book(alloc, site, who, folder) {
        Ok(book) => match aside_heads(alloc, site, who, folder, &book.aside) {
            Ok(heads) => Ok(Waiting { book, heads }),
            Err(fault) => Err(fault),
        },
        Err(fault) => Err(fault),
    }
}

/// The heads of the folder's aside segment, in order; none where there is no such segment.
fn aside_heads<S: Site>(
    alloc: Global,
    site: &mut S,
    who: &Who,
    folder: &str,
    aside: &Option<Segment>,
) -> Result<Heads, JobFault>
    requires job { who.now ≡ job }
    ensures shown { Adds (S.told site.old) (S.told site.new)
        (ShowsAside folder.now (option_map segment_view aside.now) result) }
    ensures own { Adds (S.told site.old) (S.told site.new) (Every (IsOf ReadsFile)) }
    ensures only { IfErr result IsOfRead }
    ensures last { Adds (S.told site.old) (S.told site.new) (FailsLast result) }
    ensures order { IfOk result StreamsRise }
    ensures cause { JobCause (S.fault_count site.old) (S.fault_count site.new) result }
{
    match aside {
        None => Ok(Heads::new(alloc)),
        Some(segment) => match segment_name(alloc, folder, segment.number) {
            Ok(name) => segment_heads(alloc, site, who, &name),
            Err(NoMemory) => Err(JobFault::NoMemory),
        },
    }
}

/// The heads of this segment, in order.
fn segment_heads<S: Site>(
    alloc: Global,
    site: &mut S,
    who: &Who,
    name: &Word,
) -> Result<Heads, JobFault>
    requires job { who.now ≡ job }
    ensures shown { Adds (S.told site.old) (S.told site.new) (ShowsSegment name.now result) }
    ensures own { Adds (S.told site.old) (S.told site.new) (Every (IsOf ReadsFile)) }
    ensures only { IfErr result IsOfRead }
    ensures last { Adds (S.told site.old) (S.told site.new) (FailsLast result) }
    ensures order { IfOk result StreamsRise }
    ensures cause { JobCause (S.fault_count site.old) (S.fault_count site.new) result }
{
    let mut heads = Heads::new(alloc);
    match heads.gather(alloc, site, who, name.as_str(), 0, CHUNK_BYTES as u32) {
        Ok(_) => match heads.sort(alloc) {
            Ok(()) => Ok(heads),
            Err(NoMemory) => Err(JobFault::NoMemory),
        },
        Err(fault) => Err(fault),
    }
}
