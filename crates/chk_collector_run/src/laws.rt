//! What holds of the definitions.

ghost use Rattle.chk_collector_run.specs.Messages.{ReadsOnExactly};

/// A message is read on exactly while it is open, but in two cases in which its reading may be told
/// either way.
pub fn law_reads_on_exactly()
    ensures exactly { ReadsOnExactly }
{}
