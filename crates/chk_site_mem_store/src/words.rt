// Words of an act.
ghost use Rattle.std.specs.Prelude.{◌≡◌, [], ◌∷◌, IfOk};

use chk_bytes::{Bytes, NoMemory};
use chk_site::Words;
use std::alloc::Global;

/// One text.
pub fn one(alloc: Global, text: &[u8]) -> Result<Words, NoMemory>
    ensures { IfOk result (λ words. words ≡ text.now ∷ []) }
{
    let mut words = Words::new(alloc);
    words.push(Bytes::from_slice(alloc, text)?)?;
    Ok(words)
}

/// Two texts.
pub fn two(alloc: Global, first: &[u8], second: &[u8]) -> Result<Words, NoMemory>
    ensures { IfOk result (λ words. words ≡ first.now ∷ second.now ∷ []) }
{
    let mut words = one(alloc, first)?;
    words.push(Bytes::from_slice(alloc, second)?)?;
    Ok(words)
}
