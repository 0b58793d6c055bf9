//! The lines of digests.

ghost use Rattle.std.specs.Prelude.{◌≡◌, [], ◌∷◌, map, string_bytes, IfOk, IsTrue};
ghost use Rattle.chk_bytes.specs.Words.{is_word};
ghost use Rattle.chk_site.specs.Site.{OutsideCause};
ghost use Rattle.chk_world.specs.ArchiveRuns.{is_one_line};
ghost use Rattle.chk_book.specs.Views.{end_view};
ghost use Rattle.chk_cmd_output.specs.Printing.{PrintsInTurn};
ghost use Rattle.hex.specs.Hex.{encode_lower};
ghost use Rattle.chk_ctl_sum.specs.Lines.{line_of, sum_line, sum_lines, sum_words};

use crate::sums::Sums;
use chk_book::End;
use chk_bytes::NoMemory;
use chk_cmd_output::{named, print_line};
use chk_site::{OutsideFault, Site, Who};
use std::alloc::Global;

/// Prints a line for each stream, in their order: `stream <source> <type> <name> start <offset>
/// end <offset> sha256 <digest>`, the digest as 64 hex digits, in lower case. It costs a call a
/// line.
pub fn print_sums<S: Site>(
    alloc: Global,
    site: &mut S,
    who: &Who,
    sums: &Sums,
) -> Result<(), OutsideFault>
    ensures told { PrintsInTurn who.now
        (sum_lines (map end_view sums.now.ends) sums.now.digests) result
        (S.told site.old) (S.told site.new) }
    ensures cause { OutsideCause (S.fault_count site.old) (S.fault_count site.new) result }
{
    print_rows(
        alloc,
        site,
        who,
        sums.ends.as_slice(),
        sums.digests.as_slice(),
    )
}

/// Prints the line of each of these streams that has a digest.
fn print_rows<S: Site>(
    alloc: Global,
    site: &mut S,
    who: &Who,
    ends: &[End],
    digests: &[[u8; 32]],
) -> Result<(), OutsideFault>
    ensures told { PrintsInTurn who.now (sum_lines (map end_view ends.now) digests.now) result
        (S.told site.old) (S.told site.new) }
    ensures cause { OutsideCause (S.fault_count site.old) (S.fault_count site.new) result }
{
    let count = ends.len().min(digests.len());
    for index in 0..count {
        print_row(alloc, site, who, &ends[index], &digests[index])?;
    }
    Ok(())
}

/// Prints the line of a stream.
fn print_row<S: Site>(
    alloc: Global,
    site: &mut S,
    who: &Who,
    end: &End,
    digest: &[u8; 32],
) -> Result<(), OutsideFault>
    ensures told { PrintsInTurn who.now (sum_line (end_view end.now) digest.now ∷ []) result
        (S.told site.old) (S.told site.new) }
    ensures cause { OutsideCause (S.fault_count site.old) (S.fault_count site.new) result }
{
    let line = sum_line(alloc, end, digest)?;
    print_line(alloc, site, who, line.as_bytes())
}

/// The line of a stream.
fn sum_line(alloc: Global, end: &End, digest: &[u8; 32]) -> Result<String, NoMemory>
    ensures line { IfOk result (λ line.
        string_bytes line ≡ sum_line (end_view end.now) digest.now) }
    ensures one { IsTrue (is_one_line (sum_line (end_view end.now) digest.now)) }
{
    line_with(
        alloc,
        end.source.as_str(),
        end.kind.as_str(),
        end.name.as_str(),
        end.start,
        end.end,
        digest,
    )
}

/// The line, of its words, offsets and digest.
fn line_with(
    alloc: Global,
    source: &str,
    kind: &str,
    name: &str,
    start: u64,
    end: u64,
    digest: &[u8; 32],
) -> Result<String, NoMemory>
    requires source { IsTrue (is_word source.now) }
    requires kind { IsTrue (is_word kind.now) }
    requires name { IsTrue (is_word name.now) }
    ensures line { IfOk result (λ line. string_bytes line
        ≡ line_of (sum_words source.now kind.now name.now start end (encode_lower digest.now))) }
    ensures one { IsTrue (is_one_line
        (line_of (sum_words source.now kind.now name.now start end (encode_lower digest.now)))) }
{
    let named = named(alloc, source, kind, name)?;
    let digits = hex_of(alloc, digest)?;
    let text = format!(in alloc; "{named} start {start} end {end} sha256 {digits}\n")?;
    Ok(text)
}

/// The digest in 64 hex digits, in lower case.
pub fn hex_of(alloc: Global, digest: &[u8; 32]) -> Result<String, NoMemory>
    ensures { IfOk result (λ text. string_bytes text ≡ encode_lower digest.now) }
{
    let text = hex::encode(alloc, digest.as_slice())?;
    Ok(text)
}
