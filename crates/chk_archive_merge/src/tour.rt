//! The order in which a merge goes through streams and segments.

ghost use Rattle.std.specs.Prelude.{◌≡◌, ◌≤◌, length, map, IsTrue, All, false};
ghost use Rattle.chk_book.specs.Views.{end_view};
ghost use Rattle.chk_record_reader.specs.OnePass.{end_at};
ghost use Rattle.chk_archive_merge.specs.Tours.{IsFirst, IsTurn, GoesFurther};

use crate::cursor::Cursor;
use chk_book::End;

/// Where a merge stands: at a stream of the book and a segment, the stream's records written up to
/// an offset. Behind the last stream nothing is left.
#[derive(Clone, Copy, Debug)]
pub(crate) struct Tour {
    pub stream: usize,
    pub file: usize,
    pub reached: u64,
}

/// What a merge does next.
#[derive(Clone, Copy, Debug, PartialEq, Eq)]
pub(crate) enum Turn {
    /// It writes the record that stands in its segment.
    Write,
    /// It has come to its end: all records are written.
    End,
    /// It can't go on: the segments aren't in order, or aren't as the book says.
    Stop,
}

impl Tour {
    /// The first place.
    pub(crate) fn new(ends: &[End]) -> Tour
        ensures { IsFirst (map end_view ends.now) result }
    {
        Tour {
            stream: 0,
            file: 0,
            reached: start_of(ends, 0),
        }
    }

    /// Goes on to the next segment that stands at a record of its stream. It costs the streams and
    /// the segments that it passes, each pair of them.
    pub(crate) fn seek(&mut self, ends: &[End], cursors: &[Cursor]) -> Turn
        ensures turn { IsTurn (map end_view ends.now) cursors.now self.new result }
        ensures on { GoesFurther (map end_view ends.now) self.old self.new }
    {
        while self.stream < ends.len() {
            let end = &ends[self.stream];
            self.file = next_file(cursors, self.file, end);
            if self.file < cursors.len() {
                return Turn::Write;
            }
            if self.reached != end.end {
                return Turn::Stop;
            }
            self.stream += 1;
            self.file = 0;
            self.reached = start_of(ends, self.stream);
        }
        if are_ended(cursors) {
            Turn::End
        } else {
            Turn::Stop
        }
    }
}

/// Where the stream at this place starts; 0 behind the last one.
fn start_of(ends: &[End], place: usize) -> u64
    ensures { result ≡ (end_at (map end_view ends.now) place).start }
{
    match ends.get(place) {
        Some(end) => end.start,
        None => 0,
    }
}

/// The first cursor from a place on that stands at a record of the end's stream; where there is
/// none, the place behind them all.
fn next_file(cursors: &[Cursor], from: usize, end: &End) -> usize
    ensures { from ≤ result }
{
    for place in from..cursors.len() {
        if cursors[place].is_of(end) {
            return place;
        }
    }
    from.max(cursors.len())
}

/// No cursor holds a record.
fn are_ended(cursors: &[Cursor]) -> bool
    ensures { IsTrue result → All (λ c. c.held ≡ false) cursors.now }
{
    for cursor in cursors {
        if cursor.holds() {
            return false;
        }
    }
    true
}
