//! What of one stream stands in one segment.

ghost use Rattle.std.specs.Prelude.{◌≡◌, ◌≤◌, [], ℕ, List, IsTrue, IfOk};
ghost use Rattle.chk_chunk.specs.Keys.{record_limit};
ghost use Rattle.chk_bytes.specs.Words.{is_word};
ghost use Rattle.chk_site.specs.Site.{Adds, LastFailed, OutsideCause};
ghost use Rattle.chk_seqfile.specs.Entries.{records_of};
ghost use Rattle.std.specs.Prelude.{take};
ghost use Rattle.chk_salvage.specs.Feeding.{IsFed, fed_limit, fed_marker, fed_place, Stands};
ghost use Rattle.chk_salvage.specs.declared.fed.Fed.TheVariants.{More};
ghost use Rattle.chk_world.specs.Sight.{job};
ghost use Rattle.chk_record_index.specs.Feeding.{AreChunks};
ghost use Rattle.chk_ctl_cat.specs.Courses.{KeepsCourse, FollowedFed};
ghost use Rattle.chk_ctl_cat.specs.Faults.{FailsLast, LookCause};
ghost use Rattle.chk_ctl_cat.specs.Looking.{Sees};
ghost use Rattle.chk_ctl_cat.specs.Segments.{EndsSo, FollowedSaid, Printed};

use crate::course::Course;
use crate::fault::{LookFault, damaged};
use crate::saying::{look, say};
use chk_bytes::Bytes;
use chk_record_index::{SLACK, unfinished};
use chk_salvage::Pieces;
use chk_site::{OutsideFault, Site, Who};
use std::alloc::Global;

/// Prints what a segment has of the stream's bytes, from the offset on that is wanted, and goes on over its records.
///
/// `Gone` comes exactly where the file isn't there, and `Damaged` at the first place from which on it isn't one of chunks
/// of at most `most` bytes, or at which a record of the stream doesn't go on from those before it, or ends past the
/// stream's end. What was printed before stays printed: it is what stands in front of that place, and after `Gone` the
/// stream's bytes up to `reached`.
///
/// The file is read once, in pieces of at most 131,072 bytes, and what is wanted of a piece is printed with one call. No
/// more is held than one piece, what is printed of it, and one record.
pub fn print_segment<S: Site>(
    alloc: Global,
    site: &mut S,
    who: &Who,
    name: &str,
    course: &mut Course<'_>,
    most: u32,
) -> Result<(), LookFault>
    requires job { who.now ≡ job }
    requires name { IsTrue (is_word name.now) }
    requires most { most ≤ record_limit }
    ensures told { Adds (S.told site.old) (S.told site.new) (Sees (Printed most name.now course.old course.new result)) }
    ensures keeps { KeepsCourse course.old course.new }
    ensures last { Adds (S.told site.old) (S.told site.new) (FailsLast result) }
    ensures cause { LookCause (S.fault_count site.old) (S.fault_count site.new) result }
{
    let mut pieces = Pieces::new(alloc, most + SLACK);
    let mut out = Bytes::new(alloc);
    let mut at = 0;
    loop {
        if let Some(place) = follow(alloc, site, who, &mut pieces, course, &mut out, most)? {
            return Err(damaged(alloc, name, place));
        }
        let piece = look(alloc, site, who, name, at)?;
        if piece.len() == 0 {
            return ended(alloc, &pieces, name);
        }
        pieces.feed(piece.as_slice())?;
        at += piece.len() as u64;
    }
}

/// Goes on over what was fed, and prints what is wanted of it, which is put together in the room that is lent. It says at
/// which place the file can't be one whose records go on.
fn follow<S: Site>(
    alloc: Global,
    site: &mut S,
    who: &Who,
    pieces: &mut Pieces,
    course: &mut Course<'_>,
    out: &mut Bytes,
    most: u32,
) -> Result<Option<u64>, OutsideFault>
    requires job { who.now ≡ job }
    requires fed { (fed : List ℕ) × IsFed pieces.old fed }
    ensures limit { fed_limit pieces.new ≡ fed_limit pieces.old }
    ensures keeps { KeepsCourse course.old course.new }
    ensures over { IfOk result (λ stop. (text : List ℕ) × ((fed : List ℕ) → IsFed pieces.old fed
        → AreChunks most (records_of (take (fed_place pieces.old) fed))
        → FollowedFed most course.old course.new pieces.old pieces.new [] text fed stop)) }
    ensures told { Adds (S.told site.old) (S.told site.new)
        (Sees (FollowedSaid most course.old course.new pieces.old pieces.new result)) }
    ensures last { Adds (S.told site.old) (S.told site.new) (LastFailed result) }
    ensures cause { OutsideCause (S.fault_count site.old) (S.fault_count site.new) result }
{
    out.truncate(0);
    let stop = course.take_fed(alloc, out, pieces, most)?;
    match say(alloc, site, who, out.as_slice()) {
        Ok(()) => Ok(stop),
        Err(fault) => Err(fault),
    }
}

/// Whether the file is whole, if it ends where all was fed.
fn ended(alloc: Global, pieces: &Pieces, name: &str) -> Result<(), LookFault>
    requires { IsTrue (is_word name.now) }
    ensures { (fed : List ℕ) → IsFed pieces.now fed → Stands (fed_limit pieces.now) fed (fed_marker pieces.now) (fed_place pieces.now) More
        → EndsSo name.now fed (fed_place pieces.now) result }
{
    match unfinished(pieces) {
        Some(place) => Err(damaged(alloc, name, place)),
        None => Ok(()),
    }
}
