//! Posts and polls in a row that had no good reply.

ghost use Rattle.std.specs.Prelude.{◌≡◌, ◌≢◌, ◌<◌, ◌+◌, ◌-◌, ◌^◌, None};
ghost use Rattle.chk_agent_drain.specs.Drains.{Progress, tried_answer};
ghost use Rattle.chk_agent_drain.specs.Parts.{AreTries, IsUntried, missed, failed_by};

use crate::answers::Drained;
use chk_agent::AgentFault;
use chk_site::Call;

// Why a post or a poll had no good reply.
#[derive(Clone, Copy)]
pub(crate) enum Miss {
    // Its sending failed.
    Unsent,
    // The question for the reply failed.
    Silent,
    // The reply is another one. `code` is 0 where it can't be read.
    Refused { code: u16 },
}

// How many there were in a row.
#[derive(Clone, Copy)]
pub(crate) struct Tries {
    pub(crate) count: u32,
    // The last call that failed among them.
    pub(crate) failed: Option<Call>,
    // The code of the last reply.
    pub(crate) code: u16,
}

impl Tries {
    // Nothing was tried.
    pub(crate) fn none() -> Tries
        ensures tried { (p : Progress) → IsUntried p → AreTries result p }
        ensures count { result.count ≡ 0 }
        ensures failed { result.failed ≡ None }
    {
        Tries {
            count: 0,
            failed: None,
            code: 0,
        }
    }

    // With one more.
    pub(crate) fn missed(self, miss: Miss) -> Tries
        requires { self.count < 2 ^ 32 - 1 }
        ensures tried { (p : Progress) → AreTries self p → AreTries result (missed miss p) }
        ensures count { result.count ≡ self.count + 1 }
        ensures failed { result.failed ≡ failed_by miss self.failed }
    {
        let count = self.count + 1;
        match miss {
            Miss::Unsent => Tries {
                count,
                failed: Some(Call::Send),
                code: self.code,
            },
            Miss::Silent => Tries {
                count,
                failed: Some(Call::Got),
                code: self.code,
            },
            Miss::Refused { code } => Tries {
                count,
                failed: self.failed,
                code,
            },
        }
    }

    // What a drain answers that tried all addresses.
    pub(crate) fn answer(self) -> Result<Drained, AgentFault>
        requires { self.count ≢ 0 }
        ensures { (p : Progress) → AreTries self p → result ≡ tried_answer p }
    {
        match self.failed {
            Some(call) => Err(AgentFault::Outside { call }),
            None => Ok(Drained::AllTried {
                count: self.count,
                code: self.code,
            }),
        }
    }
}
