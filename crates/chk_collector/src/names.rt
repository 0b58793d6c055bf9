//! The names of faults of posts, as the line of a reply has them.

ghost use Rattle.std.specs.Prelude.{◌≡◌};
ghost use Rattle.chk_collector.specs.Outcomes.{chunk_fault_name};

use chk_chunk::ChunkFault;

/// The name of the fault.
pub(crate) fn chunk_fault_name(fault: ChunkFault) -> &'static str
    ensures { result.now ≡ chunk_fault_name fault }
{
    match fault {
        ChunkFault::Short { .. } => "Short",
        ChunkFault::Version { .. } => "Version",
        ChunkFault::NotUtf8 { .. } => "NotUtf8",
        ChunkFault::Empty { .. } => "Empty",
        ChunkFault::TooLong { .. } => "TooLong",
        ChunkFault::BeforeStart { .. } => "BeforeStart",
        ChunkFault::TooMany { .. } => "TooMany",
        ChunkFault::Trailing { .. } => "Trailing",
        ChunkFault::TooHigh { .. } => "TooHigh",
        ChunkFault::NotWord { .. } => "NotWord",
        ChunkFault::StartHigh { .. } => "StartHigh",
    }
}
