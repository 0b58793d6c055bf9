//! How much of the streams of a load is archived.

ghost use Rattle.std.specs.Prelude.{◌≡◌, ◌-◌, ◌^◌, ◌<◌, min, map};
ghost use Rattle.chk_chunk.specs.Keys.{same_stream};
ghost use Rattle.chk_book.specs.Books.{end_in};
ghost use Rattle.chk_book.specs.Views.{end_view};
ghost use Rattle.chk_cmd_load.specs.Archived.{archived_of, load_stream};

use chk_book::End;
use chk_cmd_line::load_log;

/// The sum of the archived ends of the three streams, 0 for one that has none. It stays at the
/// greatest number of 64 bits, which no archive reaches.
pub(crate) fn archived_ends(ends: &[End]) -> u64
    ensures { result ≡ min (archived_of (map end_view ends.now) 3) (2 ^ 64 - 1) }
{
    let mut sum: u64 = 0;
    for log in 0..3 {
        sum = sum.saturating_add(archived_end(ends, log));
    }
    sum
}

// The archived end of one of the streams.
fn archived_end(ends: &[End], log: u64) -> u64
    ensures { result ≡ end_in 0 (map end_view ends.now) (load_stream log) }
{
    for end in ends {
        if is_of(end, log) {
            return end.end;
        }
    }
    0
}

// The end is that of this stream.
fn is_of(end: &End, log: u64) -> bool
    ensures { result ≡ same_stream (load_stream log) (end_view end.now).stream }
{
    "load" == end.source.as_str()
        && "Load" == end.kind.as_str()
        && load_log(log) == end.name.as_str()
}
