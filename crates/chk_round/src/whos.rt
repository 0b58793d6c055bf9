//! The processes of a round.

ghost use Rattle.std.specs.Prelude.{◌≡◌, IfOk};
ghost use Rattle.chk_world.specs.Knowing.{agent};
ghost use Rattle.chk_world.specs.Sight.{job};
ghost use Rattle.chk_round.specs.Prepared.{processes_of};
ghost use Rattle.chk_round.specs.Processes.{c1};

use chk_bytes::{NoMemory, Word};
use chk_site::{Role, Who};
use std::alloc::Global;

/// The three processes of a round.
#[derive(Drop)]
pub(crate) struct Processes {
    pub(crate) collecting: Who,
    pub(crate) reading: Who,
    pub(crate) archiving: Who,
}

/// The three processes of a round with this source.
pub(crate) fn processes_of(alloc: Global, source: &Word) -> Result<Processes, NoMemory>
    ensures { IfOk result (λ all. all ≡ processes_of source.now) }
{
    Ok(Processes {
        collecting: collector_c1(alloc)?,
        reading: agent_of(source)?,
        archiving: job(alloc)?,
    })
}

// The collector `c1`.
fn collector_c1(alloc: Global) -> Result<Who, NoMemory>
    ensures { IfOk result (λ who. who ≡ c1) }
{
    Ok(Who {
        role: Role::Collector,
        name: Word::from_text(alloc, "c1")?,
    })
}

/// The agent of this source.
pub fn agent_of(source: &Word) -> Result<Who, NoMemory>
    ensures { IfOk result (λ who. who ≡ agent source.now) }
{
    Ok(Who {
        role: Role::Agent,
        name: source.copy()?,
    })
}

/// The archive job.
pub fn job(alloc: Global) -> Result<Who, NoMemory>
    ensures { IfOk result (λ who. who ≡ job) }
{
    Ok(Who {
        role: Role::Job,
        name: Word::from_text(alloc, "job")?,
    })
}
