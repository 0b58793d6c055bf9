//! The files that stand beside a log.

ghost use Rattle.std.specs.Prelude.{◌≡◌};
ghost use Rattle.std.specs.List.{list_all, list_any};
ghost use Rattle.std.specs.Char.{is_ascii_digit};
ghost use Rattle.chk_ctl_check.specs.Beside.{beside_behind, beside_of, is_beside};
ghost use Rattle.chk_ctl_check.specs.Beside.{is_compressed, is_numbered};

use chk_bytes::Word;
use chk_site::is_suffix;

/// What a file is whose name begins with that of a log.
#[derive(Clone, Copy, Debug, PartialEq, Eq)]
pub enum Beside {
    /// A generation: a suffix stands behind the log's name.
    Dated,
    /// A dot and digits stand there, too few for a suffix.
    Numbered,
    /// A dot or a hyphen stands there, and `.gz` at the end.
    Compressed,
    /// Another file, or the log itself.
    Other,
}

/// Whether such a file stands beside the log.
pub(crate) fn has_beside(names: &[Word], base: &str, beside: Beside) -> bool
    ensures { result ≡ list_any (is_beside base.now beside) names.now }
{
    names
        .iter()
        .any(|name| is_beside(base, beside, name.as_str()))
}

fn is_beside(base: &str, beside: Beside, name: &str) -> bool
    ensures { result ≡ is_beside base.now beside name.now }
{
    beside_of(base, name) == beside
}

fn beside_of(base: &str, name: &str) -> Beside
    ensures { result ≡ beside_of base.now name.now }
{
    match name.as_bytes().strip_prefix(base.as_bytes()) {
        Some(rest) => beside_behind(rest),
        None => Beside::Other,
    }
}

fn beside_behind(rest: &[u8]) -> Beside
    ensures { result ≡ beside_behind rest.now }
{
    if is_suffix(rest) {
        Beside::Dated
    } else if is_numbered(rest) {
        Beside::Numbered
    } else if is_compressed(rest) {
        Beside::Compressed
    } else {
        Beside::Other
    }
}

fn is_numbered(rest: &[u8]) -> bool
    ensures { result ≡ is_numbered rest.now }
{
    match rest {
        [b'.', digits @ ..] => digits.len() > 0 && are_digits(digits),
        _ => false,
    }
}

fn are_digits(text: &[u8]) -> bool
    ensures { result ≡ list_all is_ascii_digit text.now }
{
    text.iter().all(|b| b.is_ascii_digit())
}

fn is_compressed(rest: &[u8]) -> bool
    ensures { result ≡ is_compressed rest.now }
{
    match rest {
        [b'.' | b'-', name @ ..] => name.ends_with(b"gz"),
        _ => false,
    }
}
