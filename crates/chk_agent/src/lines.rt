//! The lines of an agent's checkpoint.

ghost use Rattle.std.specs.Prelude.{◌≡◌, ◌≤◌, ℕ, Some, IfOk, length, slice_get, slice_index};
ghost use Rattle.chk_world.specs.Checkpoints.{most_lines};
ghost use Rattle.chk_rotate.specs.Marks.{BeginsBelow};
ghost use Rattle.chk_agent_adaptor.specs.Adaptors.{Adaptor as Reading};
ghost use Rattle.chk_checkpoint.specs.Lines.{lines_of};
ghost use Rattle.chk_agent.specs.States.{lines_at};

use chk_agent_adaptor::Adaptor;
use chk_agent_delivery::Delivery;
use chk_bytes::NoMemory;
use chk_checkpoint::Checkpoint;
use std::alloc::Global;

/// The lines of the adaptors, each at its committed end. It copies their words.
pub(crate) fn lines_now(
    alloc: Global,
    adaptors: &[Adaptor],
    delivery: &Delivery,
) -> Result<Checkpoint, NoMemory>
    requires known { length adaptors.now ≤ length delivery.now.table.committed }
    requires few { length adaptors.now ≤ most_lines }
    requires from { (i : ℕ) (a : Reading) → slice_get adaptors.now i ≡ Some a
        → BeginsBelow (slice_index delivery.now.table.committed i) a.marks }
    requires to { (i : ℕ) (a : Reading) → slice_get adaptors.now i ≡ Some a
        → slice_index delivery.now.table.committed i ≤ a.read.offset }
    ensures { IfOk result (λ check. lines_of check ≡ lines_at adaptors.now delivery.now.table.committed) }
{
    let mut lines = Vec::with_capacity(alloc, adaptors.len())?;
    for (i, adaptor) in adaptors.iter().enumerate() {
        let committed = delivery.committed_end(i as u32);
        lines.push(adaptor.line(alloc, committed)?)?;
    }
    Ok(Checkpoint { lines })
}
