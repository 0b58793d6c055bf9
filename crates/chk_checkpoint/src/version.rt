//! The versions of the text.

ghost use Rattle.std.specs.Prelude.{◌≡◌, ◌&&◌, not, bytes_eq, IfSome, IfNone};
ghost use Rattle.chk_bytes.specs.Words.{BeginsWith};
ghost use Rattle.chk_world.specs.Checkpoints.{Version as Text};
ghost use Rattle.chk_checkpoint.specs.Lines.{text_version, first_line};

/// A version of the text; in the second one each line ends with the start.
#[derive(Clone, Copy)]
pub(crate) enum Version {
    One,
    Two,
}

impl Version {
    /// The first line, with its newline.
    pub(crate) fn first_line(self) -> &'static [u8]
        ensures { result.now ≡ first_line (text_version self) }
    {
        match self {
            Version::One => b"chukwa-checkpoint 1\n",
            Version::Two => b"chukwa-checkpoint 2\n",
        }
    }
}

/// The version that the first line names.
pub(crate) fn version_of(text: &[u8]) -> Option<Version>
    ensures some { IfSome result (λ v. BeginsWith text.now (first_line (text_version v))) }
    ensures none { IfNone result ((v : Text) → BeginsWith text.now (first_line v) → ⊥) }
{
    if text.starts_with(Version::One.first_line()) {
        Some(Version::One)
    } else if text.starts_with(Version::Two.first_line()) {
        Some(Version::Two)
    } else {
        None
    }
}
