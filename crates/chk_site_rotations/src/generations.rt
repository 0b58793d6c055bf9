//! Which names in a folder are those of a log's rotated generations: the log's own name, and a suffix behind it.
ghost use Rattle.std.specs.Prelude.{◌≡◌, IfOk, IfSome, IsTrue};
ghost use Rattle.chk_bytes.specs.Words.{text_lt};
ghost use Rattle.chk_site_rotations.specs.Generations.{first_in, is_below, later_in, newest_in, shown_in, suffix_in, text_at};

use chk_bytes::{NoMemory, Word, WordFault, comes_before};
use chk_site::Suffix;
use std::alloc::Global;

/// Of names in byte order, the greatest suffix behind the base name that comes before `below`, where that is
/// given. Each name that is looked at and is a generation's takes memory for its suffix.
pub fn newest_of(
    alloc: Global,
    names: &[Word],
    base: &str,
    below: Option<&Suffix>,
) -> Result<Option<Suffix>, NoMemory>
    ensures { IfOk result (λ found. found ≡ newest_in base.now (text_at below.entry) names.now) }
{
    for passed in 0..names.len() {
        let name = &names[names.len() - 1 - passed];
        if let Some(suffix) = shown(alloc, name.as_str(), base, below)? {
            return Ok(Some(suffix));
        }
    }
    Ok(None)
}

/// Of names in byte order, the least suffix behind the base name that comes behind `after`.
pub fn first_of(
    alloc: Global,
    names: &[Word],
    base: &str,
    after: &str,
) -> Result<Option<Suffix>, NoMemory>
    ensures first { IfOk result (λ found. found ≡ first_in base.now after.now names.now) }
    ensures past { IfOk result (λ found. IfSome found (λ s. IsTrue (text_lt after.now s))) }
{
    for name in names {
        if let Some(suffix) = later(alloc, name.as_str(), base, after)? {
            return Ok(Some(suffix));
        }
    }
    Ok(None)
}

// The name's suffix, where it comes before that one.
fn shown(
    alloc: Global,
    name: &str,
    base: &str,
    below: Option<&Suffix>,
) -> Result<Option<Suffix>, NoMemory>
    ensures { IfOk result (λ found. found ≡ shown_in base.now (text_at below.entry) name.now) }
{
    match suffix_of(alloc, name, base)? {
        Some(suffix) if is_below(suffix.as_str(), below) => Ok(Some(suffix)),
        _ => Ok(None),
    }
}

fn is_below(suffix: &str, below: Option<&Suffix>) -> bool
    ensures { result ≡ is_below (text_at below.entry) suffix.now }
{
    match below {
        Some(below) => comes_before(suffix, below.as_str()),
        None => true,
    }
}

// The name's suffix, where it comes behind that one.
fn later(alloc: Global, name: &str, base: &str, after: &str) -> Result<Option<Suffix>, NoMemory>
    ensures later { IfOk result (λ found. found ≡ later_in base.now after.now name.now) }
    ensures past { IfOk result (λ found. IfSome found (λ s. IsTrue (text_lt after.now s))) }
{
    match suffix_of(alloc, name, base)? {
        Some(suffix) if comes_before(after, suffix.as_str()) => Ok(Some(suffix)),
        _ => Ok(None),
    }
}

// None where the name has no suffix behind the base name, and so is no generation's.
fn suffix_of(alloc: Global, name: &str, base: &str) -> Result<Option<Suffix>, NoMemory>
    ensures { IfOk result (λ found. found ≡ suffix_in base.now name.now) }
{
    let Some(rest) = name.as_bytes().strip_prefix(base.as_bytes()) else {
        return Ok(None);
    };
    match Suffix::new(alloc, rest) {
        Ok(suffix) => Ok(Some(suffix)),
        Err(WordFault::NoMemory) => Err(NoMemory),
        Err(_) => Ok(None),
    }
}
