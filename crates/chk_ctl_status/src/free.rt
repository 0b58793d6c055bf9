//! The room that is left beside a store.

ghost use Rattle.std.specs.Prelude.{◌≡◌, ◌==◌, ◌≤◌, length, position, string_bytes, IfOk};
ghost use Rattle.chk_ctl_status_rows.specs.Lines.{quiet_cell};
ghost use Rattle.chk_ctl_status.specs.Free.{behind_last, behind_other, block_bytes, free_before};
ghost use Rattle.chk_ctl_status.specs.Free.{free_in, free_of_line, free_text, free_word};
ghost use Rattle.chk_ctl_status.specs.Free.{number_at_end, number_before_spaces};

use chk_bytes::{NoMemory, take_decimal};
use std::alloc::Global;

/// How many bytes are free, by what `df -P -k` answers for one file: in its last line a name, how
/// many blocks of 1,024 bytes there are, are used and are free, which part is used, with `%`, and
/// where that is mounted. None where the answer is another one, isn't whole, or has a name with
/// `%`.
pub fn free_in(answer: &[u8]) -> Option<u64>
    ensures { result ≡ free_in answer.now }
{
    let lines = answer.strip_suffix(b"\n")?;
    let at = behind_last(b'\n', lines);
    free_of_line(&lines[at..])
}

/// The same by the last line.
fn free_of_line(line: &[u8]) -> Option<u64>
    ensures { result ≡ free_of_line line.now }
{
    let at = first_percent(line)?;
    free_before(&line[..at])
}

/// The place of the first percent sign.
fn first_percent(line: &[u8]) -> Option<usize>
    ensures { result ≡ position (λ b. b == 37) line.now }
{
    line.iter().position(|byte| *byte == b'%')
}

/// The same by what stands in front of the percent sign.
fn free_before(front: &[u8]) -> Option<u64>
    ensures { result ≡ free_before front.now }
{
    let _used = number_at_end(front)?;
    let at = behind_last(b' ', front);
    let blocks = number_before_spaces(&front[..at])?;
    Some(block_bytes(blocks))
}

fn block_bytes(blocks: u64) -> u64
    ensures { result ≡ block_bytes blocks }
{
    blocks.saturating_mul(1024)
}

/// The number that is the last word, with spaces behind it.
fn number_before_spaces(text: &[u8]) -> Option<u64>
    ensures { result ≡ number_before_spaces text.now }
{
    let end = behind_other(b' ', text);
    number_at_end(&text[..end])
}

/// The number that is the last word, with no space behind it.
fn number_at_end(text: &[u8]) -> Option<u64>
    ensures { result ≡ number_at_end text.now }
{
    let at = behind_last(b' ', text);
    take_decimal(&text[at..])
}

/// The place behind the last such byte, 0 where there is none.
fn behind_last(byte: u8, text: &[u8]) -> usize
    ensures place { result ≡ behind_last byte text.now }
    ensures bound { result ≤ length text.now }
{
    let mut at = text.len();
    while at > 0 {
        if text[at - 1] == byte {
            return at;
        }
        at -= 1;
    }
    0
}

/// The place behind the last byte that is another one, 0 where there is none.
fn behind_other(byte: u8, text: &[u8]) -> usize
    ensures place { result ≡ behind_other byte text.now }
    ensures bound { result ≤ length text.now }
{
    let mut at = text.len();
    while at > 0 {
        if text[at - 1] != byte {
            return at;
        }
        at -= 1;
    }
    0
}

/// The table of what is free.
pub(crate) fn free_text(alloc: Global, free: Option<u64>) -> Result<String, NoMemory>
    ensures { IfOk result (λ text. string_bytes text ≡ free_text free) }
{
    let cell = free_cell(alloc, free)?;
    let text = format!(in alloc; "           FREE\n{cell}\n")?;
    Ok(text)
}

fn free_cell(alloc: Global, free: Option<u64>) -> Result<String, NoMemory>
    ensures { IfOk result (λ text. string_bytes text ≡ quiet_cell free) }
{
    match free {
        Some(bytes) => {
            let text = format!(in alloc; "{bytes:>15}")?;
            Ok(text)
        }
        None => {
            let text = String::from_str(alloc, "              -")?;
            Ok(text)
        }
    }
}

/// What is free, in a line.
pub(crate) fn free_word(alloc: Global, free: Option<u64>) -> Result<String, NoMemory>
    ensures { IfOk result (λ text. string_bytes text ≡ free_word free) }
{
    match free {
        Some(bytes) => {
            let text = format!(in alloc; "{bytes}")?;
            Ok(text)
        }
        None => {
            let text = String::from_str(alloc, "-")?;
            Ok(text)
        }
    }
}
