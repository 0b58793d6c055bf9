//! The keys of adaptors.

ghost use Rattle.std.specs.Prelude.{◌≡◌, IfOk, IsTrue};
ghost use Rattle.std.specs.String.{string_bytes};
ghost use Rattle.chk_bytes.specs.Words.{is_word};
ghost use Rattle.chk_agent_adaptor.specs.Adaptors.{is_past};
ghost use Rattle.chk_agent_table.specs.Adaptors.{AreKeysOf, stream_key};

use chk_agent_adaptor::{Adaptor, Phase};
use chk_bytes::{NoMemory, Word};
use std::alloc::Global;

/// The keys of an adaptor that is to be added: of its stream, and of its name. They hold a copy of
/// its type, its path and its name.
#[derive(Drop)]
pub struct Keys {
    pub(crate) stream: String,
    pub(crate) name: String,
}

impl Keys {
    /// The keys of this adaptor.
    pub fn new(alloc: Global, adaptor: &Adaptor) -> Result<Keys, NoMemory>
        ensures { IfOk result (AreKeysOf adaptor.now) }
    {
        let _word = adaptor.kind().as_str();
        Ok(Keys {
            stream: stream_key(alloc, adaptor.kind(), adaptor.path())?,
            name: name_key(alloc, adaptor.name())?,
        })
    }
}

/// The type and the path with a space between them. Neither has one, so no two streams have one
/// key.
pub(crate) fn stream_key(alloc: Global, kind: &Word, path: &Word) -> Result<String, NoMemory>
    ensures { IfOk result (λ key. string_bytes key ≡ stream_key kind.now path.now) }
{
    let kind = kind.as_str();
    let path = path.as_str();
    Ok(format!(in alloc; "{kind} {path}")?)
}

/// The key of a name, which is its text.
pub(crate) fn name_key(alloc: Global, name: &Word) -> Result<String, NoMemory>
    ensures { IfOk result (λ key. string_bytes key ≡ name.now) }
{
    Ok(String::from_str(alloc, name.as_str())?)
}

/// The adaptor has ended.
pub(crate) fn is_past(phase: Phase) -> bool
    ensures { result ≡ is_past phase }
{
    matches!(phase, Phase::Past)
}
