// What is read of a log.
ghost use Rattle.std.specs.Prelude.{◌≡◌, ◌≤◌, [], ◌∷◌, IfOk, Some, None, length, nat_le, ◌+◌, option_to_list, map, if◌then◌else◌};
ghost use Rattle.chk_site.specs.Logs.{newest, read_from, part_of, first_shown, shown_after, ended};
ghost use Rattle.chk_site.specs.Site.{part_text, EndsPast};
ghost use Rattle.chk_site.specs.declared.suffixes.Part.TheVariants.{After};
ghost use Rattle.chk_site.specs.Suffixes.{is_after};
ghost use Rattle.chk_site_mem_store.specs.Reads.{text_at, part_seen, shown_of};
ghost use Rattle.chk_site_mem_store.specs.Stored.{log_at, log_of, generation_of};

use crate::logs::{MemGeneration, MemLog};
use crate::words::two;
use chk_bytes::{Bytes, NoMemory, comes_before};
use chk_site::{Part, Suffix, Words};
use std::alloc::Global;

/// The bytes of one generation, and its suffix where it is a rotated one.
#[derive(Clone, Copy)]
pub struct ShownBytes<'a> {
    pub suffix: Option<&'a Suffix>,
    pub bytes: &'a [u8],
}

/// The suffix of the newest generation that is there.
pub fn newest(log: Option<&MemLog>) -> Option<&Suffix>
    ensures { text_at result ≡ newest (log_at log.entry).rotated }
{
    newest_of(&log?.rotated)
}

fn newest_of(rotated: &[MemGeneration]) -> Option<&Suffix>
    ensures { text_at result ≡ newest (map generation_of rotated.now) }
{
    let mut found = None;
    for generation in rotated {
        found = newer(found, generation);
    }
    found
}

fn newer<'a>(found: Option<&'a Suffix>, generation: &'a MemGeneration) -> Option<&'a Suffix>
    ensures { text_at result ≡ (if generation.now.deleted then text_at found.entry else Some generation.now.suffix) }
{
    if generation.deleted {
        found
    } else {
        Some(&generation.suffix)
    }
}

/// The generation that a read of this part reads.
pub fn read_from<'a>(log: Option<&'a MemLog>, part: &Part<'_>) -> ShownBytes<'a>
    ensures shown { shown_of result ≡ read_from (part_seen part.now) (log_at log.entry) }
    ensures past { EndsPast part.now (text_at result.suffix) }
{
    let Some(log) = log else {
        return ShownBytes {
            suffix: None,
            bytes: &[],
        };
    };
    let base = ShownBytes {
        suffix: None,
        bytes: log.base.as_slice(),
    };
    match part {
        Part::Base => base,
        Part::After(after) => first_after(&log.rotated, *after, base),
    }
}

// The first generation after a suffix that is there, or else the base file.
fn first_after<'a>(
    rotated: &'a [MemGeneration],
    after: Option<&Suffix>,
    base: ShownBytes<'a>,
) -> ShownBytes<'a>
    requires { text_at base.suffix ≡ None }
    ensures shown { shown_of result ≡ first_shown (shown_after (text_at after.entry) (map generation_of rotated.now) base.entry.bytes.now) }
    ensures past { EndsPast (After after.entry) (text_at result.suffix) }
{
    for generation in rotated {
        if !generation.deleted && is_after(after, &generation.suffix) {
            return ShownBytes {
                suffix: Some(&generation.suffix),
                bytes: generation.bytes.as_slice(),
            };
        }
    }
    base
}

fn is_after(after: Option<&Suffix>, suffix: &Suffix) -> bool
    ensures { result ≡ is_after (text_at after.entry) suffix.now }
{
    match after {
        None => true,
        Some(after) => comes_before(after.as_str(), suffix.as_str()),
    }
}

/// How a path and a part stand among the words of a call.
pub fn part_words(alloc: Global, path: &[u8], part: &Part<'_>) -> Result<Words, NoMemory>
    ensures words { IfOk result (λ words. words ≡ path.now ∷ part_text part.now ∷ []) }
    ensures part { IfOk result (λ _. part_of (part_text part.now) ≡ part_seen part.now) }
{
    match part {
        Part::Base => two(alloc, path, b"base"),
        Part::After(None) => two(alloc, path, b"-"),
        Part::After(Some(suffix)) => two(alloc, path, suffix.as_str().as_bytes()),
    }
}

/// The suffix, where the bytes from `at` on, at most `max`, reach the end of a rotated generation.
pub fn ended(shown: ShownBytes<'_>, at: u64, max: u32) -> Result<Option<Suffix>, NoMemory>
    requires { at ≤ length shown.bytes.now }
    ensures { IfOk result (λ suffix. option_to_list suffix ≡ ended (text_at shown.entry.suffix) (nat_le (length shown.entry.bytes.now) (at + max))) }
{
    match shown.suffix {
        Some(suffix) if shown.bytes.len() as u64 - at <= u64::from(max) => Ok(Some(suffix.copy()?)),
        _ => Ok(None),
    }
}
