//! The names of a writer's files.

ghost use Rattle.std.specs.Prelude.{◌≡◌, ◌∷◌, IfOk, string_bytes};
ghost use Rattle.chk_wahead.specs.Names.{closed_name, file_name};

use chk_bytes::NoMemory;
use std::alloc::Global;

/// The name of the file of this writer with this ending.
pub(crate) fn file_of(alloc: Global, name: &str, ending: &str) -> Result<String, NoMemory>
    ensures { IfOk result (λ text. string_bytes text ≡ file_name name.now ending.now) }
{
    Ok(format!(in alloc; "wahead/{name}{ending}")?)
}

/// The name of the closed buffer of this number.
pub(crate) fn closed(alloc: Global, name: &str, number: u64) -> Result<String, NoMemory>
    ensures { IfOk result (λ text. string_bytes text ≡ closed_name name.now number) }
{
    Ok(format!(in alloc; "wahead/{name}-{number:019}")?)
}
