//! Laws above the contracts of the table.

ghost use Rattle.chk_acks.specs.Calls.{CommittedIsContiguous};

/// After any calls that were made as they require, the committed end of each adaptor is the
/// greatest end, from the offset of its last `begin` on, up to which each offset lies in a row that
/// was answered since and that a later `seen` reached. It runs nothing.
pub fn law_committed_is_contiguous()
    ensures { CommittedIsContiguous }
{}
