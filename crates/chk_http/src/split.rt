//! Texts with separators.

ghost use Rattle.std.specs.Prelude.{◌≡◌, ◌==◌, IsTrue, MatchOption, position};
ghost use Rattle.chk_bytes.specs.Words.{lacks, SplitsAt};

/// What stands before and behind the first separator, without a copy.
pub fn split_at(text: &[u8], separator: u8) -> Option<(&[u8], &[u8])>
    ensures { MatchOption result (IsTrue (lacks separator text.now))
        (λ parts. SplitsAt separator text.now parts.0.now parts.1.now) }
{
    let at = first_place(text, separator)?;
    Some((&text[..at], &text[at + 1..]))
}

fn first_place(text: &[u8], separator: u8) -> Option<usize>
    ensures { result ≡ position (λ b. b == separator) text.now }
{
    text.iter().position(|b| *b == separator)
}
