//! How much was taken.

ghost use Rattle.std.specs.Prelude.{◌≡◌};
ghost use Rattle.chk_cmd_udp.specs.Takings.{counted, nothing_taken};

/// The datagrams that were taken, and their bytes. Each number stays at the greatest one of 64 bits.
#[derive(Clone, Copy, Debug, PartialEq, Eq)]
pub struct Tally {
    pub taken: u64,
    pub bytes: u64,
}

impl Tally {
    /// Before the first taking.
    pub fn new() -> Tally
        ensures { result ≡ nothing_taken }
    {
        Tally { taken: 0, bytes: 0 }
    }

    /// With one more datagram of so many bytes.
    pub(crate) fn counted(self, size: usize) -> Tally
        ensures { result ≡ counted self size }
    {
        Tally {
            taken: self.taken.saturating_add(1),
            bytes: self.bytes.saturating_add(size as u64),
        }
    }
}
