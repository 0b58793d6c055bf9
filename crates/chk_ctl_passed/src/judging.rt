//! What the lines of a checkpoint say of a log.

ghost use Rattle.std.specs.Prelude.{◌≡◌, map};
ghost use Rattle.std.specs.List.{list_all, list_any};
ghost use Rattle.chk_checkpoint.specs.Lines.{shown};
ghost use Rattle.chk_ctl_passed.specs.Judging.{is_of, is_past, oldest_text, passes, verdict_by};
ghost use Rattle.chk_ctl_passed.specs.Judging.{verdict_of};

use crate::oldest::Oldest;
use chk_bytes::comes_before;
use chk_checkpoint::CheckLine;
use chk_site::Suffix;

/// What a checkpoint says of the oldest generation of a log that is there.
#[derive(Clone, Copy, Debug, PartialEq, Eq)]
pub enum Verdict {
    /// Each stream of the log has passed it, or no rotated generation is there.
    Passed,
    /// Some stream of the log hasn't, or the log changed while it was looked at.
    Behind,
    /// The checkpoint has no stream of the log.
    Unknown,
}

/// The verdict by these lines.
pub(crate) fn verdict_of(lines: &[CheckLine], path: &str, oldest: &Oldest) -> Verdict
    ensures { result ≡ verdict_of (map shown lines.now) path.now oldest.now }
{
    let is_known = has_line(lines, path);
    match oldest {
        Oldest::Base => verdict_by(is_known, true),
        Oldest::Rotated(suffix) => verdict_by(is_known, all_passed(lines, path, suffix)),
        Oldest::Changed => verdict_by(is_known, false),
    }
}

/// The verdict by whether the log is known and passed.
fn verdict_by(is_known: bool, is_passed: bool) -> Verdict
    ensures { result ≡ verdict_by is_known is_passed }
{
    match (is_known, is_passed) {
        (false, _) => Verdict::Unknown,
        (true, true) => Verdict::Passed,
        (true, false) => Verdict::Behind,
    }
}

/// Some line is of the log.
fn has_line(lines: &[CheckLine], path: &str) -> bool
    ensures { result ≡ list_any (λ line. is_of path.now (shown line)) lines.now }
{
    lines.iter().any(|line| line.path.as_str() == path)
}

/// Each line of the log has passed the generation with this suffix.
fn all_passed(lines: &[CheckLine], path: &str, oldest: &Suffix) -> bool
    ensures { result ≡ list_all (λ line. passes path.now oldest.now (shown line)) lines.now }
{
    lines.iter().all(|line| passes(line, path, oldest))
}

/// The line is of another log, or has passed the generation with this suffix.
fn passes(line: &CheckLine, path: &str, oldest: &Suffix) -> bool
    ensures { result ≡ passes path.now oldest.now (shown line.now) }
{
    line.path.as_str() != path || is_past(line.place.after.as_ref(), oldest)
}

/// The generation with the suffix `after` is this one, or a later one.
fn is_past(after: Option<&Suffix>, oldest: &Suffix) -> bool
    ensures { result ≡ is_past (oldest_text after.entry) oldest.now }
{
    match after {
        Some(after) => !comes_before(after.as_str(), oldest.as_str()),
        None => false,
    }
}
