//! What a listing of the sinks shows, counted.

ghost use Rattle.std.specs.Prelude.{◌≡◌, count_by, find, IfOk, length};
ghost use Rattle.chk_world.specs.ArchiveRuns.{is_unclosed, is_closed};
ghost use Rattle.chk_archive.specs.Counting.{IsCounted};

use crate::folder_names::is_closed;
use chk_bytes::{NoMemory, Word};

/// How many sinks under writing and how many done ones a listing shows.
#[derive(Drop)]
pub(crate) struct Counted {
    pub unclosed: u32,
    pub first_unclosed: Option<Word>,
    pub closed: u32,
}

/// Counts a listing's names. More than 32 bits hold counts as want of memory.
pub(crate) fn count_names(names: &[Word]) -> Result<Counted, NoMemory>
    ensures { IfOk result (λ counted. IsCounted names.now counted) }
{
    Ok(Counted {
        unclosed: count_of(unclosed_in(names))?,
        first_unclosed: first_unclosed(names)?,
        closed: count_of(closed_in(names))?,
    })
}

/// How many of the names are of sinks under writing.
fn unclosed_in(names: &[Word]) -> usize
    ensures { result ≡ count_by is_unclosed names.now }
{
    let mut count = 0;
    for name in names {
        if is_unclosed(name.as_str()) {
            count += 1;
        }
    }
    count
}

/// How many of the names are of done sinks.
fn closed_in(names: &[Word]) -> usize
    ensures { result ≡ count_by is_closed names.now }
{
    let mut count = 0;
    for name in names {
        if is_closed(name.as_str()) {
            count += 1;
        }
    }
    count
}

/// The first name of a sink under writing.
fn first_unclosed(names: &[Word]) -> Result<Option<Word>, NoMemory>
    ensures { IfOk result (λ first. first ≡ find is_unclosed names.now) }
{
    for name in names {
        if is_unclosed(name.as_str()) {
            return Ok(Some(name.copy()?));
        }
    }
    Ok(None)
}

/// The count in 32 bits.
pub(crate) fn count_of(count: usize) -> Result<u32, NoMemory>
    ensures { IfOk result (λ n. n ≡ count) }
{
    u32::try_from(count).map_err(|_| NoMemory)
}

/// The name is that of a sink under writing.
fn is_unclosed(name: &str) -> bool
    ensures { result ≡ is_unclosed name.now }
{
    name.as_bytes().strip_suffix(b".chukwa").is_some()
}
