//! Where a stream's records end, as their book says.

ghost use Rattle.std.specs.Prelude.{◌≡◌, ◌≤◌, length, map, drop, IsTrue, if◌then◌else◌};
ghost use Rattle.chk_chunk.specs.Keys.{same_stream};
ghost use Rattle.chk_world.specs.Books.{ends_rise};
ghost use Rattle.chk_book.specs.Books.{end_in};
ghost use Rattle.chk_book.specs.Views.{end_view};

use chk_book::End;

/// The ends stand in byte order of source, type and name, each stream once.
pub(crate) fn do_rise(ends: &[End]) -> bool
    ensures { IsTrue result → IsTrue (ends_rise (map end_view ends.now)) }
{
    for at in 1..ends.len() {
        let before = &ends[at - 1];
        let one = &ends[at];
        if !before.is_before(one) {
            return false;
        }
    }
    true
}

/// The offset past the last byte of the records of the end's stream, 0 where it has none, among
/// ends that stand in order. It is looked for from `next` on, if the end in front of that comes
/// before the stream, and else from the first one on; `next` moves to where it stands or would
/// stand. So streams in order cost one pass over the ends.
pub(crate) fn recorded_end(ends: &[End], end: &End, next: &mut usize) -> u64
    requires { IsTrue (ends_rise (map end_view ends.now)) }
    ensures { result ≡ end_in 0 (map end_view ends.now) (end_view end.now).stream }
{
    for at in begin_for(ends, end, *next)..ends.len() {
        let one = &ends[at];
        if !one.is_before(end) {
            *next = at;
            return end_if(one, end);
        }
    }
    *next = ends.len();
    0
}

/// The place from which on the stream is looked for: `near`, if the end in front of that comes
/// before the stream, and else the first one.
fn begin_for(ends: &[End], end: &End, near: usize) -> usize
    requires { IsTrue (ends_rise (map end_view ends.now)) }
    ensures within { result ≤ length ends.now }
    ensures passed { end_in 0 (drop result (map end_view ends.now)) (end_view end.now).stream
        ≡ end_in 0 (map end_view ends.now) (end_view end.now).stream }
{
    if near > 0 && near <= ends.len() && ends[near - 1].is_before(end) {
        return near;
    }
    0
}

/// Where the one end is, if it is of the other one's stream, and else 0.
fn end_if(one: &End, end: &End) -> u64
    ensures { result ≡ (if same_stream (end_view end.now).stream (end_view one.now).stream
        then (end_view one.now).end else 0) }
{
    let is_of = end.source.as_str() == one.source.as_str()
        && end.kind.as_str() == one.kind.as_str()
        && end.name.as_str() == one.name.as_str();
    if is_of { one.end } else { 0 }
}
