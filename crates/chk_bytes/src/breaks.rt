//! Where texts break.

ghost use Rattle.std.specs.Prelude.{◌≡◌, ◌==◌, position};

/// How many bytes stand before the first newline, where there is one.
pub fn line_size(text: &[u8]) -> Option<usize>
    ensures { result ≡ position (λ b. b == 10) text.now }
{
    text.iter().position(|b| *b == b'\n')
}

/// The place of the first space.
pub fn first_space(text: &[u8]) -> Option<usize>
    ensures { result ≡ position (λ b. b == 32) text.now }
{
    text.iter().position(|b| *b == b' ')
}
