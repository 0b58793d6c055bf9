//! The chosen records are copied, stream after stream.

ghost use Rattle.std.specs.Prelude.{◌≡◌, ◌≤◌, ◌++◌, ℕ, List, length, flat_map, IfErr, OnOk};
ghost use Rattle.chk_site.specs.Files.{Files};
ghost use Rattle.chk_site.specs.Site.{Adds};
ghost use Rattle.chk_site.specs.Runs.{anyhow, Leads};
ghost use Rattle.chk_chunk.specs.Keys.{Chunk, record_limit};
ghost use Rattle.chk_world.specs.Sight.{job};
ghost use Rattle.chk_world.specs.JobSteps.{SparesFile};
ghost use Rattle.chk_world.proofs.Each.{Each};
ghost use Rattle.chk_record_index.specs.Faults.{JobCause, IsOfRead};
ghost use Rattle.chk_record_reader.specs.Segments.{AreSettled};
ghost use Rattle.chk_record_reader.specs.Merging.{SparesBoth, AreApart};
ghost use Rattle.chk_join_sources.specs.Comparing.{IsSide};
ghost use Rattle.chk_join_sources.specs.Standing.{StandsSo, HasStood, heads_between, chosen_heads};
ghost use Rattle.chk_join_sources.specs.Copying.{joined_segment, chunks_between, chosen_chunks, FitsIn, IsForJoined, GoesOn, HasCopied, CanCopy, Copied, CanCopyBoth, CopiedBoth, CopiedAll, Worked, Copies};

use crate::records::copy_record;
use crate::{Block, Choice, Readers, Side};
use chk_book::Segmenter;
use chk_record_index::JobFault;
use chk_record_reader::RecordReader;
use chk_site::{Site, Who};
use std::alloc::Global;

/// Copies the records whose heads stand in the block, in turn, behind what the segment has.
fn copy_block<S: Site>(
    alloc: Global,
    site: &mut S,
    who: &Who,
    segmenter: &mut Segmenter,
    reader: &mut RecordReader,
    side: &Side<'_>,
    block: Block,
) -> Result<(), JobFault>
    requires job { who.now ≡ job }
    requires segment { IsForJoined segmenter.old }
    requires low { block.first ≤ block.end }
    requires high { block.end ≤ length side.now.heads.now }
    ensures raw { (most : ℕ) (all : List (List ℕ)) (held : Files) (chunks : List Chunk) → most ≤ record_limit → AreSettled all held
        → AreApart all (joined_segment segmenter.old.number) → IsSide most all held side.now
        → Adds (S.told site.old) (S.told site.new)
        (Leads (anyhow (SparesBoth all (joined_segment segmenter.old.number)))
        (CanCopy all held side.now chunks reader.old segmenter.old)
        (Copied all held side.now (chunks ++ chunks_between side.now held block.first block.end)
        reader.new segmenter.new result)) }
    ensures stands { (chunks : List Chunk) → Adds (S.told site.old) (S.told site.new)
        (Leads (anyhow (SparesFile (joined_segment segmenter.old.number))) (StandsSo chunks segmenter.old)
        (HasStood chunks (heads_between side.now block.first block.end) segmenter.new result)) }
    ensures on { OnOk result (GoesOn segmenter.old segmenter.new) }
    ensures works { Adds (S.told site.old) (S.told site.new) (Worked (Copies segmenter.old.number) result) }
    ensures only { IfErr result IsOfRead }
    ensures cause { JobCause (S.fault_count site.old) (S.fault_count site.new) result }
{
    for index in block.first..block.end {
        copy_record(alloc, site, who, segmenter, reader, side, index)?;
    }
    Ok(())
}

/// Copies the records that are chosen of one stream.
fn copy_choice<S: Site>(
    alloc: Global,
    site: &mut S,
    who: &Who,
    segmenter: &mut Segmenter,
    readers: &mut Readers,
    left: &Side<'_>,
    right: &Side<'_>,
    choice: Choice,
) -> Result<(), JobFault>
    requires job { who.now ≡ job }
    requires segment { IsForJoined segmenter.old }
    requires fits { FitsIn left.now right.now choice }
    ensures raw { (most : ℕ) (all : List (List ℕ)) (held : Files) (chunks : List Chunk) → most ≤ record_limit → AreSettled all held
        → AreApart all (joined_segment segmenter.old.number) → IsSide most all held left.now → IsSide most all held right.now
        → Adds (S.told site.old) (S.told site.new)
        (Leads (anyhow (SparesBoth all (joined_segment segmenter.old.number)))
        (CanCopyBoth all held left.now right.now chunks readers.old segmenter.old)
        (CopiedBoth all held left.now right.now (chunks ++ chosen_chunks left.now right.now held choice)
        readers.new segmenter.new result)) }
    ensures stands { (chunks : List Chunk) → Adds (S.told site.old) (S.told site.new)
        (Leads (anyhow (SparesFile (joined_segment segmenter.old.number))) (StandsSo chunks segmenter.old)
        (HasStood chunks (chosen_heads left.now right.now choice) segmenter.new result)) }
    ensures on { OnOk result (GoesOn segmenter.old segmenter.new) }
    ensures works { Adds (S.told site.old) (S.told site.new) (Worked (Copies segmenter.old.number) result) }
    ensures only { IfErr result IsOfRead }
    ensures cause { JobCause (S.fault_count site.old) (S.fault_count site.new) result }
{
    let block = choice.block;
    if choice.from_right {
        return copy_block(
            alloc,
            site,
            who,
            segmenter,
            &mut readers.right,
            right,
            block,
        );
    }
    copy_block(alloc, site, who, segmenter, &mut readers.left, left, block)
}

/// Copies the records that are chosen of all streams, in turn.
pub(crate) fn copy_all<S: Site>(
    alloc: Global,
    site: &mut S,
    who: &Who,
    segmenter: &mut Segmenter,
    left: &Side<'_>,
    right: &Side<'_>,
    choices: &[Choice],
) -> Result<(), JobFault>
    requires job { who.now ≡ job }
    requires segment { IsForJoined segmenter.old }
    requires fits { Each (FitsIn left.now right.now) choices.now }
    ensures raw { (most : ℕ) (all : List (List ℕ)) (held : Files) (chunks : List Chunk) → most ≤ record_limit → AreSettled all held
        → AreApart all (joined_segment segmenter.old.number) → IsSide most all held left.now → IsSide most all held right.now
        → Adds (S.told site.old) (S.told site.new)
        (Leads (anyhow (SparesBoth all (joined_segment segmenter.old.number)))
        (HasCopied all held chunks segmenter.old)
        (CopiedAll all held (chunks ++ flat_map (chosen_chunks left.now right.now held) choices.now) segmenter.new result)) }
    ensures stands { (chunks : List Chunk) → Adds (S.told site.old) (S.told site.new)
        (Leads (anyhow (SparesFile (joined_segment segmenter.old.number))) (StandsSo chunks segmenter.old)
        (HasStood chunks (flat_map (chosen_heads left.now right.now) choices.now) segmenter.new result)) }
    ensures on { OnOk result (GoesOn segmenter.old segmenter.new) }
    ensures works { Adds (S.told site.old) (S.told site.new) (Worked (Copies segmenter.old.number) result) }
    ensures only { IfErr result IsOfRead }
    ensures cause { JobCause (S.fault_count site.old) (S.fault_count site.new) result }
{
    let mut readers = Readers::new(alloc);
    for index in 0..choices.len() {
        let choice = choices[index];
        copy_choice(
            alloc,
            site,
            who,
            segmenter,
            &mut readers,
            left,
            right,
            choice,
        )?;
    }
    Ok(())
}
