//! The lines of a load, appended to their logs in pieces.

ghost use Rattle.std.specs.Prelude.{◌≡◌, ◌≤◌, ◌<◌, ◌+◌, ◌++◌, ℕ, [], ◌∷◌, length};
ghost use Rattle.std.specs.Prelude.{IfOk, IsTrue, if◌then◌else◌};
ghost use Rattle.chk_site.specs.Site.{OutsideCause};
ghost use Rattle.chk_cmd_line.specs.Loads.{load_log, load_text};
ghost use Rattle.chk_cmd_load.specs.Lines.{ends_lines};
ghost use Rattle.chk_cmd_load.specs.Pieces.{AppendsInTurn, Flushes, WritesAll, WritesLog};
ghost use Rattle.chk_cmd_load.specs.Pieces.{log_piece_limit};

use chk_bytes::{Bytes, NoMemory};
use chk_cmd_line::{LoadLines, load_log};
use chk_site::{Call, OutsideFault, Site, Who, reached};
use std::alloc::Global;

/// A piece has at most so many bytes.
const PIECE: usize = 65_536;

// No line has more bytes.
const LINE: usize = 31;

// A piece with so many bytes may have no room for another line.
const FULL: usize = PIECE - LINE + 1;

/// Appends the lines to the three logs, one log after the other, and tells how many bytes they
/// have. It holds one piece in memory and costs the number of lines three times.
pub(crate) fn append_lines<S: Site>(
    alloc: Global,
    site: &mut S,
    writer: &Who,
    lines: u64,
) -> Result<u64, OutsideFault>
    requires few { lines ≤ 200000 }
    ensures writes { WritesAll writer.now lines result (S.told site.old) (S.told site.new) }
    ensures cause { OutsideCause (S.fault_count site.old) (S.fault_count site.new) result }
{
    let mut bytes = 0;
    for log in 0..3 {
        bytes += append_log(alloc, site, writer, log, lines)?;
    }
    Ok(bytes)
}

// Appends the lines of one log, and tells how many bytes they have.
fn append_log<S: Site>(
    alloc: Global,
    site: &mut S,
    writer: &Who,
    log: u64,
    lines: u64,
) -> Result<u64, OutsideFault>
    requires one { log < 3 }
    requires few { lines ≤ 200000 }
    ensures writes { WritesLog writer.now lines log result (S.told site.old) (S.told site.new) }
    ensures cause { OutsideCause (S.fault_count site.old) (S.fault_count site.new) result }
{
    let mut source = LoadLines::new(lines);
    let mut piece = Bytes::new(alloc);
    let mut bytes = 0;
    for line in 0..lines {
        put_own(&mut source, line % 3 == log, &mut piece)?;
        bytes += append_from(alloc, site, writer, log, &mut piece, FULL)?;
    }
    bytes += append_from(alloc, site, writer, log, &mut piece, 1)?;
    Ok(bytes)
}

// Goes on by one line, which is put behind the piece where it is an own one.
fn put_own(source: &mut LoadLines, is_own: bool, piece: &mut Bytes) -> Result<(), NoMemory>
    requires some { source.old.line < source.old.lines }
    ensures source { IfOk result (λ _. source.new
        ≡ record { lines = source.old.lines; line = source.old.line + 1 }) }
    ensures piece { IfOk result (λ _. piece.new ≡ piece.old
        ++ (if is_own then load_text source.old.lines source.old.line else [])) }
{
    let before = piece.len();
    let _more = source.put_next(piece)?;
    if !is_own {
        piece.truncate(before);
    }
    Ok(())
}

// Appends the piece to the log where it has at least so many bytes, and leaves it empty; otherwise
// nothing is done. It tells how many bytes were appended.
fn append_from<S: Site>(
    alloc: Global,
    site: &mut S,
    writer: &Who,
    log: u64,
    piece: &mut Bytes,
    least: usize,
) -> Result<u64, OutsideFault>
    requires one { log < 3 }
    requires some { 1 ≤ least }
    requires most { length piece.old ≤ log_piece_limit }
    requires lines { IsTrue (ends_lines piece.old) }
    ensures flushes { Flushes writer.now (load_log log) least piece.old piece.new result
        (S.told site.old) (S.told site.new) }
    ensures cause { OutsideCause (S.fault_count site.old) (S.fault_count site.new) result }
{
    if piece.len() < least {
        return Ok(0);
    }
    append_piece(alloc, site, writer, log, piece.as_slice())?;
    let appended = piece.len() as u64;
    piece.truncate(0);
    Ok(appended)
}

// Appends the piece to the log. It costs one call.
fn append_piece<S: Site>(
    alloc: Global,
    site: &mut S,
    writer: &Who,
    log: u64,
    piece: &[u8],
) -> Result<(), OutsideFault>
    requires one { log < 3 }
    requires some { 0 < length piece.now }
    requires most { length piece.now ≤ log_piece_limit }
    requires lines { IsTrue (ends_lines piece.now) }
    ensures appends { AppendsInTurn writer.now
        (record { path = load_log log; bytes = piece.now } ∷ []) result (S.told site.old) (S.told site.new) }
    ensures cause { OutsideCause (S.fault_count site.old) (S.fault_count site.new) result }
{
    let given = site.log_append(alloc, writer, load_log(log), piece);
    reached(Call::LogAppend, given)
}
