//! The file of a checkpoint.

ghost use Rattle.std.specs.Prelude.{◌≡◌, ℕ, IsTrue, List, Option, Some, IfOk, string_bytes};
ghost use Rattle.chk_site.specs.declared.acts.Role.TheVariants.{Agent};
ghost use Rattle.chk_site.specs.Files.{File};
ghost use Rattle.chk_site.specs.Effect.{IsSmallFile};
ghost use Rattle.chk_site.specs.History.{Every};
ghost use Rattle.chk_site.specs.Site.{Adds, LastFailed, OutsideCause};
ghost use Rattle.chk_site.specs.Runs.{anyhow, Leads, MadeInTurn};
ghost use Rattle.chk_replace.specs.Replace.{replacement, LeavesFile, SparesOld, TouchesBoth};
ghost use Rattle.chk_replace.specs.Load.{Has, IsLook};
ghost use Rattle.chk_world.specs.Names.{CheckFile, is_source, spell};
ghost use Rattle.chk_world.specs.Checkpoints.{Two, are_lines, read_checkpoint};
ghost use Rattle.chk_checkpoint.specs.Lines.{lines_of, written_text};
ghost use Rattle.chk_world.specs.Rules.{Legal};
ghost use Rattle.chk_world.specs.Places.{As};
ghost use Rattle.chk_checkpoint.specs.Loads.{IsReadingOf, IsSound, LoadedLines};
ghost use Rattle.chk_checkpoint.specs.Faults.{CheckCause, FailsLast};

use crate::reading::read_text;
use crate::writing::text_of;
use crate::{CheckFault, Checkpoint};
use chk_bytes::{Bytes, NoMemory, Word};
use chk_replace::{load, replace};
use chk_site::{OutsideFault, Site, Who};
use std::alloc::Global;

// The name of the agent's checkpoint.
fn check_name(alloc: Global, source: &Word) -> Result<String, NoMemory>
    ensures { IfOk result (λ name. string_bytes name ≡ spell (CheckFile source.now)) }
{
    Ok(format!(in alloc; "agents/{source}.check")?)
}

/// Replaces the agent's checkpoint by one of these lines, whole. The lines have to be those of a checkpoint: at most
/// 10,000, each in the grammar, no two of one stream, no two live ones of one name. The text is made before the first
/// call on the outside; it takes memory for the text. Without memory the checkpoint is the old one.
pub fn write_checkpoint<S: Site>(
    alloc: Global,
    site: &mut S,
    who: &Who,
    check: &Checkpoint,
) -> Result<(), OutsideFault>
    requires lines { IsTrue (are_lines Two (lines_of check.now)) }
    ensures told { MadeInTurn (replacement who.now (spell (CheckFile who.now.name)) (written_text (lines_of check.now)))
        result (S.told site.old) (S.told site.new) }
    ensures read { read_checkpoint (written_text (lines_of check.now)) ≡ Some (lines_of check.now) }
    ensures own { Adds (S.told site.old) (S.told site.new) (Every (TouchesBoth who.now (spell (CheckFile who.now.name)))) }
    ensures unmade { Adds (S.told site.old) (S.told site.new)
        (Every (SparesOld result (spell (CheckFile who.now.name)))) }
    ensures last { Adds (S.told site.old) (S.told site.new) (LastFailed result) }
    ensures cause { OutsideCause (S.fault_count site.old) (S.fault_count site.new) result }
{
    let name = check_name(alloc, &who.name)?;
    let text = text_of(alloc, &check.lines)?;
    replace(alloc, site, who, name.as_str(), text.as_slice())
}

/// The lines of the agent's checkpoint; none where there is no file. It reads that file alone, and holds it whole in
/// memory beside the lines.
pub fn load_checkpoint<S: Site>(
    alloc: Global,
    site: &mut S,
    who: &Who,
) -> Result<Checkpoint, CheckFault>
    ensures lines { IfOk result (λ check. IsTrue (are_lines Two (lines_of check))) }
    ensures whole { (file : Option File) → IsSmallFile file → Adds (S.told site.old) (S.told site.new)
        (Leads (anyhow (LeavesFile (spell (CheckFile who.now.name)))) (Has (spell (CheckFile who.now.name)) file)
        (LoadedLines (spell (CheckFile who.now.name)) file result)) }
    ensures sound { (stamped : List (List ℕ)) → who.now.role ≡ Agent → IsTrue (is_source who.now.name)
        → Adds (S.told site.old) (S.told site.new) (Leads (As stamped who.now) (Legal stamped) (IsSound who.now.name result)) }
    ensures reads { Adds (S.told site.old) (S.told site.new) (Every (IsLook who.now (spell (CheckFile who.now.name)))) }
    ensures last { Adds (S.told site.old) (S.told site.new) (FailsLast result) }
    ensures cause { CheckCause (S.fault_count site.old) (S.fault_count site.new) result }
{
    let name = check_name(alloc, &who.name)?;
    let given = load(alloc, site, who, name.as_str())?;
    lines_in(alloc, given)
}

// The lines of a file of these bytes; none where there is no file.
fn lines_in(alloc: Global, given: Option<Bytes>) -> Result<Checkpoint, CheckFault>
    ensures { IsReadingOf given result }
{
    match given {
        Some(text) => read_text(alloc, text.as_slice()),
        None => Ok(Checkpoint {
            lines: Vec::new(alloc),
        }),
    }
}
