// How much a reader asks for, and what it takes of what it got.
ghost use Rattle.std.specs.Prelude.{◌≡◌, ◌+◌, ◌≤◌, length};
ghost use Rattle.chk_tail.specs.Taking.{asks_at, taken_of, to_last_newline};

use chk_site::{LOG_END, PIECE_BYTES, Piece};

/// How many bytes a step at this place asks for: `PIECE_BYTES`, or fewer up to `LOG_END`.
pub fn ask(at: u64) -> u32
    ensures asks { result ≡ asks_at at }
    ensures piece { result ≤ PIECE_BYTES }
    ensures end { at ≤ LOG_END → at + result ≤ LOG_END }
    ensures past { LOG_END ≤ at → result ≡ 0 }
{
    LOG_END.saturating_sub(at).min(PIECE_BYTES as u64) as u32
}

/// How many bytes a reader takes of a piece: all of it without `lines`, and at the end of a rotated
/// generation; else those up to its last newline, or a whole `PIECE_BYTES` without one. It looks at
/// the bytes behind the last newline alone.
pub fn take_of(lines: bool, piece: &Piece) -> usize
    ensures taken { result ≡ taken_of lines piece.now }
    ensures within { result ≤ length piece.now.bytes }
{
    let bytes = piece.bytes.as_slice();
    if !lines || piece.ended.is_some() {
        return bytes.len();
    }
    let end = to_last_newline(bytes);
    if end == 0 && bytes.len() == PIECE_BYTES {
        return PIECE_BYTES;
    }
    end
}

// How many bytes stand up to the last newline, with it.
fn to_last_newline(bytes: &[u8]) -> usize
    ensures last { result ≡ to_last_newline bytes.now }
    ensures within { result ≤ length bytes.now }
{
    let mut end = bytes.len();
    while end > 0 && bytes[end - 1] != b'\n' {
        end -= 1;
    }
    end
}
