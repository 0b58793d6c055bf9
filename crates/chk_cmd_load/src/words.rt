//! What a load asks a round for, and who writes.

ghost use Rattle.std.specs.Prelude.{◌≡◌, ◌<◌, [], ◌∷◌, IfOk};
ghost use Rattle.chk_cmd_line.specs.Loads.{load_log};
ghost use Rattle.chk_cmd_load.specs.Processes.{IsLoadRound, chukwa};

use chk_bytes::{NoMemory, Word};
use chk_cmd_line::load_log;
use chk_control::Class;
use chk_round::RoundWords;
use chk_site::{Role, Who};
use std::alloc::Global;

/// After so many reads that gave bytes a log counts as still growing.
const READS: u64 = 1_000_000;

/// The process that appends the lines and prints the summary.
pub fn writer(alloc: Global) -> Result<Who, NoMemory>
    ensures { IfOk result (λ who. who ≡ chukwa) }
{
    Ok(Who {
        role: Role::Writer,
        name: Word::from_text(alloc, "chukwa")?,
    })
}

/// A round of the source `load`, with the type `Load`, of the three logs.
pub(crate) fn round_words(alloc: Global) -> Result<RoundWords, NoMemory>
    ensures { IfOk result IsLoadRound }
{
    Ok(RoundWords {
        source: Word::from_text(alloc, "load")?,
        kind: Word::from_text(alloc, "Load")?,
        class: Class::Plain,
        reads: READS,
        cluster: Word::from_text(alloc, "none")?,
        logs: logs(alloc)?,
    })
}

// The paths of the three logs.
fn logs(alloc: Global) -> Result<Vec<Word>, NoMemory>
    ensures { IfOk result (λ logs. logs.items
        ≡ load_log 0 ∷ load_log 1 ∷ load_log 2 ∷ []) }
{
    let mut logs = Vec::new(alloc);
    logs.push(path(alloc, 0)?)?;
    logs.push(path(alloc, 1)?)?;
    logs.push(path(alloc, 2)?)?;
    Ok(logs)
}

fn path(alloc: Global, log: u64) -> Result<Word, NoMemory>
    requires { log < 3 }
    ensures { IfOk result (λ path. path ≡ load_log log) }
{
    Word::from_text(alloc, load_log(log))
}
