//! The lines of a text.

ghost use Rattle.std.specs.Prelude.{◌≡◌, ◌≤◌, ◌==◌, ◌++◌, ◌∷◌, [], length, map, IfOk, IfSome, IfNone};
ghost use Rattle.std.specs.Bool.{OnTrue};
ghost use Rattle.chk_world.specs.Checkpoints.{most_lines};
ghost use Rattle.chk_checkpoint.specs.Lines.{shown, text_version};
ghost use Rattle.chk_checkpoint.specs.Fields.{lent};
ghost use Rattle.chk_checkpoint.specs.Seen.{HasSeen, may_follow, NoLine, TookLine};
ghost use Rattle.chk_checkpoint.specs.Damage.{IsReading};

use crate::line::{LineRef, own_line, read_line};
use crate::seen::Seen;
use crate::version::{Version, version_of};
use crate::{CheckFault, CheckLine, Checkpoint, MOST_LINES};
use chk_bytes::{NoMemory, line_size};
use std::alloc::Global;

/// The lines of a text. Its cost is the text's length, and for each line a look-up among the names and streams so far.
pub(crate) fn read_text(alloc: Global, text: &[u8]) -> Result<Checkpoint, CheckFault>
    ensures { IsReading text.now result }
{
    let Some(version) = version_of(text) else {
        return Err(CheckFault::Damaged { at: 0 });
    };
    let mut lines = Vec::new(alloc);
    let mut seen = Seen::new(alloc);
    let mut at = version.first_line().len();
    while at < text.len() {
        let Some(size) = next_line(alloc, version, &text[at..], &mut lines, &mut seen)? else {
            return Err(CheckFault::Damaged { at: at as u64 });
        };
        at += size + 1;
    }
    Ok(Checkpoint { lines })
}

// Takes the line that a text begins with, and says how many bytes it has; none where no line may stand there.
fn next_line<'a>(
    alloc: Global,
    version: Version,
    text: &'a [u8],
    lines: &mut Vec<CheckLine>,
    seen: &mut Seen<'a>,
) -> Result<Option<usize>, NoMemory>
    requires few { length lines.old.items ≤ most_lines }
    requires seen { HasSeen seen.old (map shown lines.old.items) }
    ensures some { IfOk result (λ size. IfSome size
        (TookLine (text_version version) (map shown lines.old.items) text.now (map shown lines.new.items) seen.new)) }
    ensures none { IfOk result (λ size. IfNone size (NoLine (text_version version) (map shown lines.old.items) text.now)) }
{
    let Some(size) = line_size(text) else {
        return Ok(None);
    };
    let Some(line) = read_line(version, &text[..size]) else {
        return Ok(None);
    };
    if !take_line(alloc, lines, seen, &line)? {
        return Ok(None);
    }
    Ok(Some(size))
}

// Takes one more line, where it may follow those so far, and says whether it may.
fn take_line<'a>(
    alloc: Global,
    lines: &mut Vec<CheckLine>,
    seen: &mut Seen<'a>,
    line: &LineRef<'a>,
) -> Result<bool, NoMemory>
    requires few { length lines.old.items ≤ most_lines }
    requires seen { HasSeen seen.old (map shown lines.old.items) }
    ensures taken { IfOk result (λ taken. taken ≡ may_follow (map shown lines.old.items) (lent line.now)) }
    ensures lines { IfOk result (λ taken. OnTrue taken (map shown lines.new.items ≡ map shown lines.old.items ++ lent line.now ∷ [])) }
    ensures seen { IfOk result (λ taken. OnTrue taken (HasSeen seen.new (map shown lines.new.items))) }
{
    if lines.len() == MOST_LINES {
        return Ok(false);
    }
    if !seen.add(line)? {
        return Ok(false);
    }
    lines.push(own_line(alloc, line)?)?;
    Ok(true)
}
