//! The subscribers of a collector.

ghost use Rattle.std.specs.Prelude.{◌≡◌, ◌≤◌, length};
ghost use Rattle.chk_tee_sender.specs.Offers.{HasNoOffer, IsPassed, PassesPost, PassesNone};
ghost use Rattle.chk_tee_sender.specs.Passing.{PassCause};
ghost use Rattle.chk_tee_sender.specs.Subscribers.{most_subscribers};

use crate::Subscriber;
use crate::offers::offered;
use crate::passing::pass_on;
use chk_bytes::NoMemory;
use chk_site::{Site, Who};
use std::alloc::Global;
use std::marker::Model;

/// The subscribers that weren't dropped, in order. It keeps its allocator.
#[derive(Drop)]
pub struct Tees {
    alloc: Global,
    standing: Vec<Subscriber>,
}

impl Model for Tees {
    ghost use Rattle.std.specs.Prelude.{List};
    ghost use Rattle.chk_tee_sender.specs.declared.Subscriber.{Subscriber as Watcher};

    ghost Value = { List Watcher };

    ghost view = { λ t. t.standing.items };

    ghost use Rattle.std.specs.Prelude.{◌≤◌, length};
    ghost use Rattle.chk_tee_sender.specs.Subscribers.{most_subscribers};

    ghost invariant = { λ t. length t.standing.items ≤ most_subscribers };
}

/// How many subscribers were sent a message, and how many were dropped.
#[derive(Clone, Copy, Debug, PartialEq, Eq)]
pub struct Passed {
    pub sent: u32,
    pub dropped: u32,
}

impl Tees {
    /// These subscribers, at most 16, in this order. Two may have one address.
    pub fn new(alloc: Global, subscribers: Vec<Subscriber>) -> Tees
        requires { length subscribers.items ≤ most_subscribers }
        ensures { result ≡ subscribers.items }
    {
        Tees {
            alloc,
            standing: subscribers,
        }
    }

    /// Sends each subscriber those chunks of the post that pass its filter, with the sinks and the
    /// places of the reply's lines, in one message. A subscriber that couldn't be sent its message is
    /// dropped. Where the request isn't a post, or the reply isn't a good one to it, or one of its
    /// lines has the number 0, nothing is sent.
    ///
    /// Without a subscriber it reads nothing. Else it reads the request and the reply once more, and
    /// goes through the chunks twice for each subscriber. Want of memory ends it, with the subscribers
    /// that stood then. It makes no call but sends.
    pub fn pass<S: Site>(
        &mut self,
        site: &mut S,
        who: &Who,
        request: &[u8],
        reply: &[u8],
    ) -> Result<Passed, NoMemory>
        ensures told { PassesPost who.now request.now reply.now self.old self.new result (S.told site.old) (S.told site.new) }
        ensures did { IsPassed who.now request.now reply.now self.old self.new result (S.told site.old) (S.told site.new) }
        ensures none { HasNoOffer request.now reply.now → PassesNone self.old self.new result (S.told site.old) (S.told site.new) }
        ensures cause { PassCause (S.fault_count site.old) (S.fault_count site.new) result }
    {
        if self.standing.len() == 0 {
            return Ok(Passed {
                sent: 0,
                dropped: 0,
            });
        }
        match offered(request, reply) {
            Some(offer) => pass_on(self.alloc, site, who, &mut self.standing, &offer),
            None => Ok(Passed {
                sent: 0,
                dropped: 0,
            }),
        }
    }
}
