//! The scene of what an agent delivers: three chunks that wait, and a collector that replies.
ghost use Rattle.std.specs.Prelude.{◌<◌, ◌≤◌, ◌^◌, IfOk};
ghost use Rattle.chk_test_agent.specs.Filling.{IsFresh, IsSix};

use crate::answers::{answered, lengths, polled, posted};
use crate::collectors::collector_named;
use crate::starts::{agent_named, ring_of};
use crate::words::{told, word};
use chk_agent_delivery::{Delivery, Rules};
use chk_bytes::{Bytes, NoMemory};
use chk_chunk::Chunk;
use chk_site::Site;
use chk_test_engine::{Outside, Parts, Scene, shown};
use std::alloc::Global;
use std::test::Fail;

/// The agent h1, of which three chunks of six bytes wait: `hello` of /a.log, `other` of /b.log and
/// `world` of /a.log, each with its newline. The adaptor of /a.log is 0, and that of /b.log is 1.
#[derive(Drop)]
pub struct DeliveryScene {
    outside: Outside,
    delivery: Delivery,
    // The last message that was taken.
    message: Bytes,
}

// Six bytes of the log of this name, up to this offset.
fn chunk(alloc: Global, name: &str, seq: u64, body: &[u8; 6]) -> Result<Chunk, Fail>
    requires from { 6 ≤ seq }
    requires below { seq < 2 ^ 32 }
    ensures { IfOk result (IsSix seq) }
{
    let source = word(alloc, "h1")?;
    let kind = word(alloc, "Log")?;
    let name = word(alloc, name)?;
    let cluster = word(alloc, "none")?;
    let body = Bytes::from_slice(alloc, body)?;
    Ok(Chunk {
        source,
        kind,
        name,
        start: 0,
        cluster,
        seq,
        body,
    })
}

// Room for so many rows of two adaptors, and nothing waits.
fn empty(alloc: Global, rows: u32) -> Result<Delivery, Fail>
    ensures { IfOk result IsFresh }
{
    let rules = Rules {
        rows,
        queue: 1_000_000,
        poll: 1000,
        expire: 300_000,
    };
    Ok(Delivery::new(alloc, ring_of(alloc, "self")?, rules, 2)?)
}

// Two chunks of the first adaptor, and one of the second between them.
fn fill(delivery: &mut Delivery, first: Chunk, second: Chunk, third: Chunk) -> Result<(), NoMemory>
    requires fresh { IsFresh delivery.old }
    requires first { IsSix 6 first }
    requires second { IsSix 6 second }
    requires third { IsSix 12 third }
{
    delivery.put(0, first)?;
    delivery.put(1, second)?;
    delivery.put(0, third)
}

fn filled(alloc: Global, rows: u32) -> Result<Delivery, Fail> {
    let mut delivery = empty(alloc, rows)?;
    let first = chunk(alloc, "/a.log", 6, b"hello\n")?;
    let second = chunk(alloc, "/b.log", 6, b"other\n")?;
    let third = chunk(alloc, "/a.log", 12, b"world\n")?;
    fill(&mut delivery, first, second, third)?;
    Ok(delivery)
}

// The collector takes the next message and replies so.
fn replies(outside: &mut Outside, reply: &[u8]) -> Result<Bytes, Fail> {
    let alloc = outside.alloc;
    let who = collector_named(alloc, "c1")?;
    let taking = outside.site.take(alloc, &who, "self", 0);
    let taking = taking.map_err(|_| "no take")?.ok_or("no message")?;
    let answer = outside.site.answer(alloc, &who, taking.number, reply);
    answer.map_err(|_| "no answer")?;
    Ok(taking.bytes)
}

impl DeliveryScene {
    // - `post`, `reply NOW`, `poll` and `lengths`: the agent's calls.
    fn calls(&mut self, verb: &str, text: &str) -> Result<String, Fail> {
        self.outside.begin();
        let alloc = self.outside.alloc;
        let who = agent_named(alloc, "h1")?;
        let site = &mut self.outside.site;
        match verb {
            "post" => posted(alloc, Ok(self.delivery.post(alloc, site, &who)?)),
            "reply" => {
                let now = text.parse()?;
                answered(alloc, Ok(self.delivery.post_reply(alloc, site, &who, now)?))
            }
            "poll" => polled(alloc, Ok(self.delivery.poll(alloc, site, &who)?)),
            _ => lengths(alloc, Ok(self.delivery.poll_reply(alloc, site, &who)?)),
        }
    }

    // These adaptors go back at this moment.
    fn expires(&mut self, now: u64) -> Result<String, Fail> {
        let alloc = self.outside.alloc;
        let mut text = String::from_str(alloc, "gone")?;
        for adaptor in self.delivery.expire(alloc, now)?.as_slice() {
            write!(&mut text, " {adaptor}")?;
        }
        Ok(text)
    }

    // These adaptors are stopped.
    fn stops(&mut self, text: &str) -> Result<(), Fail> {
        let alloc = self.outside.alloc;
        let mut adaptors = Vec::new(alloc);
        for word in text.split(' ') {
            adaptors.push(word.parse()?)?;
        }
        Ok(self.delivery.stop(alloc, adaptors.as_slice())?)
    }
}

impl Scene for DeliveryScene {
    fn empty(alloc: Global) -> Result<Box<DeliveryScene>, Fail> {
        let scene = DeliveryScene {
            outside: Outside::new(alloc)?,
            delivery: filled(alloc, 9)?,
            message: Bytes::new(alloc),
        };
        Ok(Box::new(alloc, scene)?)
    }

    fn outside(&mut self) -> &mut Outside {
        &mut self.outside
    }

    // - `rows N`: it begins anew with room for so many rows, in place of 9.
    // - `stop ADAPTOR ..`: these are stopped; `expire NOW`: which go back at this moment.
    // - `used`: how many bytes wait.
    // - `replies PARTS`: the collector takes the next message and replies so; `message PARTS`: that is
    //   what it took.
    fn step(&mut self, parts: &Parts, verb: &str, text: &str) -> Result<Option<String>, Fail> {
        let alloc = self.outside.alloc;
        match verb {
            "post" | "reply" | "poll" | "lengths" => return Ok(Some(self.calls(verb, text)?)),
            "expire" => return Ok(Some(self.expires(text.parse()?)?)),
            "message" if parts.bytes(alloc, text)?.as_slice() != self.message.as_slice() => {
                return Ok(Some(shown(alloc, self.message.as_slice())?));
            }
            "message" => {}
            "used" => {
                let used = self.delivery.used();
                return Ok(Some(format!(in alloc; "{used}")?));
            }
            "rows" => self.delivery = filled(alloc, text.parse()?)?,
            "stop" => self.stops(text)?,
            "replies" => {
                let reply = parts.bytes(alloc, text)?;
                self.message = replies(&mut self.outside, reply.as_slice())?;
            }
            _ => return Ok(None),
        }
        Ok(Some(told(alloc, "done", &[])?))
    }
}
