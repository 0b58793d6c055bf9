//! What is taken runs on as the ends say.

ghost use Rattle.std.specs.Prelude.{◌≡◌, ◌≤◌, ◌-◌, true, take, drop, length, map};
ghost use Rattle.chk_world.proofs.Each.{Each};
ghost use Rattle.chk_book.specs.Views.{end_view};
ghost use Rattle.chk_join_sources.specs.Copying.{FitsIn};
ghost use Rattle.chk_join_sources.specs.Standing.{chosen_heads};
ghost use Rattle.chk_join.specs.Runs.{HeadsRun, ChosenRun};

use chk_book::End;
use chk_join_sources::{Block, Choice, Side};
use chk_record_index::Heads;
use chk_record_reader::is_of;

/// The chosen records of each stream run from its start to its end. It costs the number of the records.
pub(crate) fn runs_on(left: &Side<'_>, right: &Side<'_>, choices: &[Choice], ends: &[End]) -> bool
    requires fits { Each (FitsIn left.now right.now) choices.now }
    ensures { result ≡ true → ChosenRun left.now right.now (map end_view ends.now) choices.now }
{
    if choices.len() != ends.len() {
        return false;
    }
    for i in 0..ends.len() {
        if !choice_runs(left, right, choices[i], &ends[i]) {
            return false;
        }
    }
    true
}

/// The chosen records of one stream run so.
fn choice_runs(left: &Side<'_>, right: &Side<'_>, choice: Choice, end: &End) -> bool
    requires fits { FitsIn left.now right.now choice }
    ensures { result ≡ true → HeadsRun (end_view end.now) end.now.start (chosen_heads left.now right.now choice) end.now.end }
{
    if choice.from_right {
        block_runs(right.heads, choice.block, end)
    } else {
        block_runs(left.heads, choice.block, end)
    }
}

/// The records whose heads stand in the block run so.
fn block_runs(heads: &Heads, block: Block, end: &End) -> bool
    requires { (block.first ≤ block.end) × (block.end ≤ length heads.now) }
    ensures { result ≡ true → HeadsRun (end_view end.now) end.now.start
        (take (block.end - block.first) (drop block.first heads.now)) end.now.end }
{
    let mut reached = end.start;
    for index in block.first..block.end {
        let head = heads.get(index);
        if !is_of(end, &head) || head.key.start != end.start || head.begin != reached {
            return false;
        }
        reached = head.key.seq;
    }
    reached == end.end
}
