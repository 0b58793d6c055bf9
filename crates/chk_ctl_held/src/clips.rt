//! Spans of a stream's bytes, put together.

ghost use Rattle.std.specs.Prelude.{◌≡◌, nat_lt};
ghost use Rattle.chk_ctl_held.specs.Elsewhere.{clipped, no_span, with_span};

use crate::spans::Span;

/// No bytes.
pub(crate) fn no_span() -> Span
    ensures { result ≡ no_span }
{
    Span { from: 0, to: 0 }
}

/// Of the bytes from `low` up to `high` those from `begin` up to `end`.
pub(crate) fn clipped(low: u64, high: u64, begin: u64, end: u64) -> Span
    ensures { result ≡ clipped low high begin end }
{
    Span {
        from: low.max(begin),
        to: high.min(end),
    }
}

/// Whether it has a byte.
fn has_bytes(span: Span) -> bool
    ensures { result ≡ nat_lt span.from span.to }
{
    span.from < span.to
}

/// The shortest span that has the bytes of both.
pub(crate) fn with_span(all: Span, part: Span) -> Span
    ensures { result ≡ with_span all part }
{
    if !has_bytes(part) {
        return all;
    }
    if !has_bytes(all) {
        return part;
    }
    Span {
        from: all.from.min(part.from),
        to: all.to.max(part.to),
    }
}
