//! The bytes of a stream that are missing.

ghost use Rattle.std.specs.Prelude.{IsTrue};
ghost use Rattle.chk_bytes.specs.Words.{is_word};

use crate::streams::StreamRef;

/// The bytes of a stream from an offset up to another one, for which chunks wait.
#[derive(Clone, Copy)]
pub(crate) struct GapRef<'a> {
    pub stream: StreamRef<'a>,
    pub from: u64,
    pub to: u64,
    ghost source: { IsTrue (is_word stream.source.now) },
    ghost kind: { IsTrue (is_word stream.kind.now) },
    ghost name: { IsTrue (is_word stream.name.now) },
}
