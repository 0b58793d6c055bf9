//! Spans of a stream's bytes.

/// The bytes from an offset up to another one: none where that isn't past it.
#[derive(Clone, Copy)]
pub(crate) struct Span {
    pub from: u64,
    pub to: u64,
}
