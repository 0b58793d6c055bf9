//! The chunks that wait, and the numbers of their adaptors.

ghost use Rattle.std.specs.Prelude.{◌≡◌, ◌++◌, ◌∷◌, [], IsTrue, IsFalse, OnOk, OnErr, if◌then◌else◌};

use chk_bytes::NoMemory;
use chk_chunk::Chunk;
use chk_queue::Queue;
use std::collections::VecDeque;

/// Puts a chunk and the number of its adaptor behind the others, both or neither.
pub(crate) fn put_behind(
    owners: &mut VecDeque<u32>,
    queue: &mut Queue,
    adaptor: u32,
    chunk: Chunk,
) -> Result<(), NoMemory>
    ensures owned { OnOk result (owners.new.items ≡ owners.old.items ++ adaptor ∷ []) }
    ensures queued { OnOk result (queue.new ≡ record queue.old { chunks = queue.old.chunks ++ chunk ∷ [] }) }
    ensures no_owner { OnErr result (owners.new.items ≡ owners.old.items) }
    ensures no_chunk { OnErr result (queue.new ≡ queue.old) }
{
    if !is_pushed(owners, adaptor) {
        return Err(NoMemory);
    }
    if !is_queued(queue, chunk) {
        let _owner = owners.pop_back();
        return Err(NoMemory);
    }
    Ok(())
}

// Puts a number behind the others, and says whether there was memory.
fn is_pushed(owners: &mut VecDeque<u32>, adaptor: u32) -> bool
    ensures { owners.new.items ≡ (if result then owners.old.items ++ adaptor ∷ [] else owners.old.items) }
{
    owners.push_back(adaptor).is_ok()
}

// Puts a chunk behind the others, and says whether it is there.
fn is_queued(queue: &mut Queue, chunk: Chunk) -> bool
    ensures put { IsTrue result → queue.new ≡ record queue.old { chunks = queue.old.chunks ++ chunk ∷ [] } }
    ensures same { IsFalse result → queue.new ≡ queue.old }
{
    queue.put(chunk).is_ok()
}
