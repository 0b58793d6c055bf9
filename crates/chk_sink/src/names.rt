//! The names of a collector's files.

ghost use Rattle.std.specs.Prelude.{◌≡◌, ◌++◌, IfOk, codes, string_bytes};
ghost use Rattle.chk_bytes.specs.Stems.{stem_text};
ghost use Rattle.chk_world.specs.Names.{SinkFile, MarkFile, DoneFile, spell};

use chk_bytes::{NoMemory, Stem};
use std::alloc::Global;

/// The stem's text.
pub(crate) fn text(alloc: Global, stem: &Stem) -> Result<String, NoMemory>
    ensures { IfOk result (λ text. string_bytes text ≡ stem_text stem.now) }
{
    Ok(format!(in alloc; "{stem}")?)
}

/// The name of the sink while it is written to.
pub(crate) fn sink(alloc: Global, stem: &Stem) -> Result<String, NoMemory>
    ensures { IfOk result (λ name. string_bytes name ≡ spell (SinkFile stem.now)) }
{
    with_ending(alloc, stem, ".chukwa")
}

/// The name of its mark.
pub(crate) fn mark(alloc: Global, stem: &Stem) -> Result<String, NoMemory>
    ensures { IfOk result (λ name. string_bytes name ≡ spell (MarkFile stem.now)) }
{
    with_ending(alloc, stem, ".mark")
}

/// The name of the sink once it is closed.
pub(crate) fn closed(alloc: Global, stem: &Stem) -> Result<String, NoMemory>
    ensures { IfOk result (λ name. string_bytes name ≡ spell (DoneFile stem.now)) }
{
    with_ending(alloc, stem, ".done")
}

// The name of the stem's file with this ending.
fn with_ending(alloc: Global, stem: &Stem, ending: &str) -> Result<String, NoMemory>
    ensures { IfOk result (λ name. string_bytes name ≡ codes "sinks/" ++ (stem_text stem.now ++ ending.now)) }
{
    Ok(format!(in alloc; "sinks/{stem}{ending}")?)
}
