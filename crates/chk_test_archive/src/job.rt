//! The archive job, its folder, and the sink that most cases have.
ghost use Rattle.std.specs.Prelude.{◌≡◌, IfOk, IsTrue, codes};
ghost use Rattle.chk_book.specs.Folders.{is_folder};
ghost use Rattle.chk_world.specs.Sight.{job};

use chk_bytes::{NoMemory, Word};
use chk_site::{Role, Who};
use std::alloc::Global;

pub(crate) const SINK: &str = "sinks/c1.1.1.done";

pub(crate) fn archiver(alloc: Global) -> Result<Who, NoMemory>
    ensures { IfOk result (λ who. who ≡ job) }
{
    Ok(Who {
        role: Role::Job,
        name: Word::from_text(alloc, "job")?,
    })
}

pub(crate) fn archive_folder() -> &'static str
    ensures text { result.now ≡ codes "archive" }
    ensures folder { IsTrue (is_folder result.now) }
{
    "archive"
}
