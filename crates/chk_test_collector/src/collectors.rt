//! The collectors c1 and c2 over one store, and what they answer.
ghost use Rattle.std.specs.Prelude.{IsTrue};
ghost use Rattle.chk_bytes.specs.Stems.{is_collector};

use crate::answers::{collector_of, end_text, fault_text};
use chk_collector::Collector;
use chk_http::read_reply;
use chk_site_mem::SiteMem;
use chk_test_engine::{Outside, Parts, Scene, plain, shown};
use std::alloc::Global;
use std::test::Fail;

// The milliseconds after which a sink is closed.
const ROTATE: u64 = 300_000;

/// The collectors c1 and c2; none before its start, and if the start was refused.
#[derive(Drop)]
pub struct CollectorScene {
    outside: Outside,
    first: Option<Collector>,
    second: Option<Collector>,
}

// The code and the body of a reply.
fn reply_text(alloc: Global, reply: &[u8]) -> Result<String, Fail> {
    let Ok(read) = read_reply(reply) else {
        return plain(alloc, "no reply");
    };
    let code = read.code;
    let body = shown(alloc, read.body)?;
    Ok(format!(in alloc; "{code} {body}")?)
}

// How many lines a reply has, and the last one.
fn outline(alloc: Global, told: &str) -> Result<String, Fail> {
    let lines = told.strip_suffix('|').ok_or("no last line")?;
    let count = lines.split('|').count();
    let (_, last) = lines.rsplit_once('|').unwrap_or(("", lines));
    Ok(format!(in alloc; "{count} {last}")?)
}

fn ask(
    alloc: Global,
    site: &mut SiteMem,
    collector: &mut Collector,
    verb: &str,
    request: &[u8],
) -> Result<String, Fail> {
    let reply = collector.respond(alloc, site, request)?;
    if verb == "reply" {
        return shown(alloc, reply.as_slice());
    }
    let told = reply_text(alloc, reply.as_slice())?;
    match verb {
        "ask" => Ok(told),
        _ => outline(alloc, told.as_str()),
    }
}

fn work(
    alloc: Global,
    site: &mut SiteMem,
    collector: &mut Collector,
    parts: &Parts,
    verb: &str,
    text: &str,
) -> Result<String, Fail> {
    match verb {
        "tick" => end_text(alloc, &collector.tick(alloc, site, 0)),
        "finish" => end_text(alloc, &collector.finish(alloc, site)),
        _ => {
            let request = parts.bytes(alloc, text)?;
            ask(alloc, site, collector, verb, request.as_slice())
        }
    }
}

fn start(
    alloc: Global,
    site: &mut SiteMem,
    seat: &mut Option<Collector>,
    name: &[u8],
) -> Result<String, Fail>
    requires { IsTrue (is_collector name.now) }
{
    let who = collector_of(alloc, name)?;
    *seat = None;
    match Collector::start(alloc, site, &who, ROTATE) {
        Ok(collector) => {
            *seat = Some(collector);
            plain(alloc, "done")
        }
        Err(fault) => fault_text(alloc, &fault),
    }
}

// What the collector of this name answers.
fn step_of(
    outside: &mut Outside,
    seat: &mut Option<Collector>,
    name: &[u8],
    parts: &Parts,
    verb: &str,
    text: &str,
) -> Result<String, Fail>
    requires { IsTrue (is_collector name.now) }
{
    let alloc = outside.alloc;
    outside.begin();
    if verb == "start" {
        return start(alloc, &mut outside.site, seat, name);
    }
    match seat {
        Some(collector) => work(alloc, &mut outside.site, collector, parts, verb, text),
        None => plain(alloc, "no collector"),
    }
}

impl Scene for CollectorScene {
    fn empty(alloc: Global) -> Result<Box<Self>, Fail> {
        let scene = CollectorScene {
            outside: Outside::new(alloc)?,
            first: None,
            second: None,
        };
        Ok(Box::new(alloc, scene)?)
    }

    fn outside(&mut self) -> &mut Outside {
        &mut self.outside
    }

    // - `start`, `tick`, `finish`.
    // - `ask PARTS`: the code and the body of the reply to this request. `outline PARTS`: how many
    //   lines it has, and the last one. `reply PARTS`: the whole reply.
    // - `c2 VERB TEXT`: the collector c2 does so, and not c1.
    fn step(&mut self, parts: &Parts, verb: &str, text: &str) -> Result<Option<String>, Fail> {
        let outside = &mut self.outside;
        match verb {
            "start" | "tick" | "finish" | "ask" | "outline" | "reply" => {
                let first = &mut self.first;
                Ok(Some(step_of(outside, first, b"c1", parts, verb, text)?))
            }
            "c2" => {
                let (verb, text) = text.split_once(' ').unwrap_or((text, ""));
                let second = &mut self.second;
                Ok(Some(step_of(outside, second, b"c2", parts, verb, text)?))
            }
            _ => Ok(None),
        }
    }
}
