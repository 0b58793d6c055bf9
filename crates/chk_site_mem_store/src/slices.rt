// Parts of byte strings.
ghost use Rattle.std.specs.Prelude.{◌≡◌, ◌≤◌, length, take, drop};

/// The first bytes, at most so many.
pub fn front(bytes: &[u8], max: usize) -> &[u8]
    ensures { result.now ≡ take max bytes.now }
{
    if max < bytes.len() {
        &bytes[..max]
    } else {
        bytes
    }
}

/// The bytes from a place on, at most so many.
pub fn piece(bytes: &[u8], at: usize, max: usize) -> &[u8]
    requires { at ≤ length bytes.now }
    ensures { result.now ≡ take max (drop at bytes.now) }
{
    front(&bytes[at..], max)
}
