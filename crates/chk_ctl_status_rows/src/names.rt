//! The names of sinks.

ghost use Rattle.std.specs.Prelude.{◌≡◌, ◌++◌, codes, count_by, string_bytes, IfOk};
ghost use Rattle.chk_bytes.specs.Stems.{stem_text};
ghost use Rattle.chk_world.specs.ArchiveRuns.{is_closed};
ghost use Rattle.chk_ctl_status_rows.specs.Sinks.{marked, number_of, open_stem};

use chk_bytes::{Bytes, NoMemory, Stem, Word, take_u64};
use std::alloc::Global;

/// The stem of the sink under writing that a file of this name is.
pub(crate) fn open_stem(name: &str) -> Option<Stem>
    ensures { result ≡ open_stem name.now }
{
    Stem::read(name.as_bytes().strip_suffix(b".chukwa")?)
}

/// How many of the names are of closed sinks.
pub(crate) fn closed_in(names: &[Word]) -> usize
    ensures { result ≡ count_by is_closed names.now }
{
    let mut count = 0;
    for name in names {
        if is_closed(name.as_str()) {
            count += 1;
        }
    }
    count
}

fn is_closed(name: &str) -> bool
    ensures { result ≡ is_closed name.now }
{
    name.as_bytes().strip_suffix(b".done").is_some()
}

/// The name of the stem's file with this ending.
pub(crate) fn with_ending(alloc: Global, stem: &Stem, ending: &str) -> Result<String, NoMemory>
    ensures { IfOk result (λ name. string_bytes name
        ≡ codes "sinks/" ++ (stem_text stem.now ++ ending.now)) }
{
    Ok(format!(in alloc; "sinks/{stem}{ending}")?)
}

/// The number in a mark; 0 where there is none, or another number of bytes than eight.
pub(crate) fn marked(mark: &Option<Bytes>) -> u64
    ensures { result ≡ marked mark.now }
{
    match mark {
        Some(bytes) => number_of(bytes.as_slice()),
        None => 0,
    }
}

fn number_of(bytes: &[u8]) -> u64
    ensures { result ≡ number_of bytes.now }
{
    if bytes.len() != 8 {
        return 0;
    }
    take_u64(bytes, 0).unwrap_or(0)
}
