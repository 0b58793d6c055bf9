//! Two collectors, each at its address, and a message that one of them keeps for later.
ghost use Rattle.std.specs.Prelude.{◌≡◌, IfOk, IsTrue};
ghost use Rattle.chk_bytes.specs.Stems.{is_collector};
ghost use Rattle.chk_site.specs.declared.acts.Role.TheVariants.{Collector as collector_role};

use crate::replies::{reply_text, spelled_reply};
use crate::words::told;
use chk_bytes::{Bytes, Word};
use chk_collector::Collector;
use chk_site::{Role, Site, Taking, Who};
use chk_site_mem::SiteMem;
use std::alloc::Global;
use std::test::Fail;

// How long a collector waits from the first tick that sees a sink until it closes it, in
// milliseconds.
const ROTATE: u64 = 1_000_000_000;

// c1 and c2, where they have started.
#[derive(Drop)]
pub(crate) struct Collectors {
    first: Option<Collector>,
    second: Option<Collector>,
    held: Option<Taking>,
}

pub(crate) fn collector_named(alloc: Global, name: &str) -> Result<Who, Fail>
    ensures role { IfOk result (λ who. who.role ≡ collector_role) }
    ensures name { IfOk result (λ who. IsTrue (is_collector who.name)) }
{
    match name {
        "c1" => Ok(Who {
            role: Role::Collector,
            name: Word::new(alloc, b"c1".as_slice())?,
        }),
        "c2" => Ok(Who {
            role: Role::Collector,
            name: Word::new(alloc, b"c2".as_slice())?,
        }),
        _ => Err(Fail::from("no such collector")),
    }
}

fn takes(alloc: Global, site: &mut SiteMem, name: &str) -> Result<Option<Taking>, Fail> {
    let who = collector_named(alloc, name)?;
    let address = if name == "c1" { "c1:80" } else { "c2:80" };
    Ok(site.take(alloc, &who, address, 0).unwrap_or(None))
}

// The message to its end. None: a further piece doesn't come.
fn message(
    alloc: Global,
    site: &mut SiteMem,
    who: &Who,
    taking: &Taking,
) -> Result<Option<Bytes>, Fail> {
    let mut message = taking.bytes.copy()?;
    for _piece in 0..64 {
        let Ok(piece) = site.more(alloc, who, taking.number) else {
            return Ok(None);
        };
        if piece.as_slice().is_empty() {
            return Ok(Some(message));
        }
        message.push_all(piece.as_slice())?;
    }
    Err(Fail::from("a message without an end"))
}

// The collector's reply to the message, as its code and body.
fn responds(
    alloc: Global,
    site: &mut SiteMem,
    collector: &mut Collector,
    name: &str,
    taking: &Taking,
) -> Result<String, Fail> {
    let who = collector_named(alloc, name)?;
    let Some(bytes) = message(alloc, site, &who, taking)? else {
        return told(alloc, "cut", &[]);
    };
    let reply = collector.respond(alloc, site, bytes.as_slice())?;
    match site.answer(alloc, &who, taking.number, reply.as_slice()) {
        Ok(()) => reply_text(alloc, reply.as_slice()),
        Err(_) => told(alloc, "unanswered", &[]),
    }
}

// A message is taken and answered with this code and body.
fn says(alloc: Global, site: &mut SiteMem, name: &str, text: &str) -> Result<&'static str, Fail> {
    let Some(taking) = takes(alloc, site, name)? else {
        return Ok("no message");
    };
    let who = collector_named(alloc, name)?;
    let reply = spelled_reply(alloc, text)?;
    match site.answer(alloc, &who, taking.number, reply.as_slice()) {
        Ok(()) => Ok("said"),
        Err(_) => Ok("unanswered"),
    }
}

fn works(
    alloc: Global,
    site: &mut SiteMem,
    collector: &mut Collector,
    verb: &str,
    text: &str,
) -> Result<&'static str, Fail> {
    let given = match verb {
        "tick" => collector.tick(alloc, site, text.parse()?),
        _ => collector.finish(alloc, site),
    };
    Ok(if given.is_ok() { "done" } else { "refused" })
}

impl Collectors {
    pub(crate) fn new() -> Collectors {
        Collectors {
            first: None,
            second: None,
            held: None,
        }
    }

    fn named(&mut self, name: &str) -> &mut Option<Collector> {
        if name == "c1" {
            &mut self.first
        } else {
            &mut self.second
        }
    }

    // Takes a message and answers it, or answers the one that is kept.
    fn serves(
        &mut self,
        alloc: Global,
        site: &mut SiteMem,
        verb: &str,
        name: &str,
    ) -> Result<String, Fail> {
        let taking = match verb {
            "serve" => takes(alloc, site, name)?,
            _ => self.held.take(),
        };
        let Some(taking) = taking else {
            return told(alloc, "no message", &[]);
        };
        match self.named(name) {
            Some(collector) => responds(alloc, site, collector, name, &taking),
            None => told(alloc, "no collector", &[]),
        }
    }

    fn starts(
        &mut self,
        alloc: Global,
        site: &mut SiteMem,
        name: &str,
    ) -> Result<&'static str, Fail> {
        let who = collector_named(alloc, name)?;
        let collector = Collector::start(alloc, site, &who, ROTATE).ok();
        let is_started = collector.is_some();
        *self.named(name) = collector;
        Ok(if is_started { "done" } else { "refused" })
    }

    // - `collector`: it starts.
    // - `tick NOW` and `finish`.
    // - `hold`: a message is taken, to be answered later; `lose`: it is never answered.
    // - `say CODE BODY`: it is answered so, by nobody's rules.
    fn does(
        &mut self,
        alloc: Global,
        site: &mut SiteMem,
        name: &str,
        verb: &str,
        text: &str,
    ) -> Result<&'static str, Fail> {
        match verb {
            "collector" => self.starts(alloc, site, name),
            "hold" => {
                self.held = takes(alloc, site, name)?;
                Ok(if self.held.is_some() {
                    "held"
                } else {
                    "no message"
                })
            }
            "lose" => {
                let is_lost = takes(alloc, site, name)?.is_some();
                Ok(if is_lost { "lost" } else { "no message" })
            }
            "say" => says(alloc, site, name, text),
            "tick" | "finish" => match self.named(name) {
                Some(collector) => works(alloc, site, collector, verb, text),
                None => Ok("no collector"),
            },
            _ => Err(Fail::from("no such verb of a collector")),
        }
    }

    // Of `serve`, and of `release`, which answers the message that is kept, the answer is the code and
    // the body of the reply.
    pub(crate) fn asks(
        &mut self,
        alloc: Global,
        site: &mut SiteMem,
        name: &str,
        verb: &str,
        text: &str,
    ) -> Result<String, Fail> {
        match verb {
            "serve" | "release" => self.serves(alloc, site, verb, name),
            _ => told(alloc, self.does(alloc, site, name, verb, text)?, &[]),
        }
    }
}
