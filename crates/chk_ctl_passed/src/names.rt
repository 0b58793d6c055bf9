//! The names of agents' checkpoints.

ghost use Rattle.std.specs.Prelude.{◌≡◌, IfOk};
ghost use Rattle.chk_ctl_passed.specs.Agents.{agent_named, agent_of};

use chk_bytes::{NoMemory, Word, WordFault};
use chk_site::{Role, Who};
use std::alloc::Global;

/// The agent whose checkpoint has this name in its folder; none where no agent's has. It is named
/// as the job, so that a look is no act of the agent's. It copies the source.
pub fn agent_of(alloc: Global, name: &str) -> Result<Option<Who>, NoMemory>
    ensures { IfOk result (λ agent. agent ≡ agent_of name.now) }
{
    match name.as_bytes().strip_suffix(b".check".as_slice()) {
        Some(source) => agent_named(alloc, source),
        None => Ok(None),
    }
}

/// The agent of this source, where it is a word.
fn agent_named(alloc: Global, source: &[u8]) -> Result<Option<Who>, NoMemory>
    ensures { IfOk result (λ agent. agent ≡ agent_named source.now) }
{
    match Word::new(alloc, source) {
        Ok(name) => Ok(Some(Who {
            role: Role::Job,
            name,
        })),
        Err(WordFault::NoMemory) => Err(NoMemory),
        Err(_) => Ok(None),
    }
}
