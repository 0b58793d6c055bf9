//! Which side's records of each stream are the joined archive's.

ghost use Rattle.std.specs.Prelude.{◌≡◌, ◌≤◌, ℕ, List, map, IfOk, IfErr};
ghost use Rattle.chk_chunk.specs.Keys.{record_limit};
ghost use Rattle.chk_site.specs.Files.{Files};
ghost use Rattle.chk_site.specs.History.{Every};
ghost use Rattle.chk_site.specs.Site.{Adds};
ghost use Rattle.chk_site.specs.Runs.{anyhow, Leads};
ghost use Rattle.chk_world.specs.Sight.{job};
ghost use Rattle.chk_world.specs.JobSteps.{IsOf, ReadsFile};
ghost use Rattle.chk_record_index.specs.Faults.{JobCause, FailsLast, IsOfRead};
ghost use Rattle.chk_record_index.specs.Pieces.{AsksInPieces};
ghost use Rattle.chk_book.specs.Views.{end_view};
ghost use Rattle.chk_record_reader.specs.Segments.{HasFiles, SparesFiles, AreSettled};
ghost use Rattle.chk_join_sources.specs.Pairs.{pairs_of};
ghost use Rattle.chk_join_sources.specs.Choosing.{IsSideInOrder, IsChosen, ComparedPairs};

use crate::choices::take_next;
use crate::difference::Difference;
use crate::pairs::{Places, has_more};
use crate::plan::Plan;
use crate::{Readers, Side};
use chk_book::End;
use chk_record_index::JobFault;
use chk_site::{Site, Who};
use std::alloc::Global;

/// What a comparison of two archives comes to.
#[derive(Drop)]
pub enum Chosen {
    Agree(Plan),
    Differ(Difference),
}

/// Goes through the streams of two archives, whose ends stand in byte order, compares what both have of a stream, and chooses the
/// records of the longer one, the left ones where both are equally long.
///
/// Each record of a stream that both have is read once, in pieces of at most 1,048,576 bytes, up to the first byte that differs.
/// 40 bytes and the names are held for a stream.
pub fn choose<S: Site>(
    alloc: Global,
    site: &mut S,
    who: &Who,
    lefts: &[End],
    rights: &[End],
    left: &Side<'_>,
    right: &Side<'_>,
) -> Result<Chosen, JobFault>
    requires job { who.now ≡ job }
    ensures raw { (most : ℕ) (all : List (List ℕ)) (held : Files) → most ≤ record_limit → AreSettled all held
        → IsSideInOrder most all held left.now → IsSideInOrder most all held right.now
        → Adds (S.told site.old) (S.told site.new) (Leads (anyhow (SparesFiles all)) (HasFiles all held)
        (ComparedPairs all left.now right.now held (pairs_of (map end_view lefts.now) (map end_view rights.now)) result)) }
    ensures chosen { IfOk result (IsChosen left.now.heads.now right.now.heads.now
        (pairs_of (map end_view lefts.now) (map end_view rights.now))) }
    ensures own { Adds (S.told site.old) (S.told site.new) (Every (IsOf ReadsFile)) }
    ensures pieces { Adds (S.told site.old) (S.told site.new) (Every AsksInPieces) }
    ensures only { IfErr result IsOfRead }
    ensures last { Adds (S.told site.old) (S.told site.new) (FailsLast result) }
    ensures cause { JobCause (S.fault_count site.old) (S.fault_count site.new) result }
{
    let mut plan = Plan::new(alloc);
    let mut readers = Readers::new(alloc);
    let mut at = Places {
        left: 0,
        right: 0,
        left_head: 0,
        right_head: 0,
    };
    while has_more(lefts, rights, &at) {
        let found = take_next(
            alloc,
            site,
            who,
            lefts,
            rights,
            left,
            right,
            &mut readers,
            &mut plan,
            &mut at,
        )?;
        if let Some(difference) = found {
            return Ok(Chosen::Differ(difference));
        }
    }
    Ok(Chosen::Agree(plan))
}
