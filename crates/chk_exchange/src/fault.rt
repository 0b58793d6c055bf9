//! Why an exchange ended otherwise.

use chk_bytes::{NoMemory, Word};
use chk_site::Call;

/// Why an exchange ended otherwise.
#[derive(Debug, Drop)]
pub enum ExchangeFault {
    /// This call of the outside failed, by the agent, by the collector, or while the message was
    /// handled. A message whose handling failed is answered all the same, and the answer got,
    /// where those calls go well.
    Outside { call: Call },
    /// There was no memory.
    NoMemory,
    /// The file `name` isn't what it has to be, from its byte `at` on. The collector found it so
    /// while it handled the message.
    Damaged { name: Word, at: u64 },
    /// No sink number follows in the start `number` of the collector.
    Spent { number: u64 },
    /// The agent got neither a good reply nor, where the collector's reply told a fault, one of
    /// that reply's code. `code` is the status code of what it got, 0 where that can't be read.
    Refused { code: u16 },
}

impl From<NoMemory> for ExchangeFault {
    ghost use Rattle.std.specs.Prelude.{◌≡◌};
    ghost use Rattle.chk_exchange.specs.declared.fault.ExchangeFault.TheVariants.{NoMemory};

    ghost from_gives = { λ _ e. e ≡ NoMemory };

    fn from(_: NoMemory) -> Self {
        ExchangeFault::NoMemory
    }
}
