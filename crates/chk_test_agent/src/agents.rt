//! The calls of an agent, by their verbs.
ghost use Rattle.std.specs.Prelude.{◌≡◌, true};

use crate::answers::{
    added, answered, faulted, filled, lengths, polled, posted, replied, settled, state_text,
    stepped,
};
use crate::drains::drains;
use crate::words::{parted, told, word};
use chk_agent::Agent;
use chk_control::Class;
use chk_site::Site;
use chk_site_mem::SiteMem;
use std::alloc::Global;
use std::test::Fail;

// `CLASS TYPE PATH`.
fn adds(alloc: Global, site: &mut SiteMem, agent: &mut Agent, text: &str) -> Result<String, Fail>
    requires { agent.old.ready ≡ true }
{
    let (class, stream) = parted(text);
    let (kind, path) = parted(stream);
    let class = match class {
        "plain" => Class::Plain,
        "rotating" => Class::Rotating,
        "lines" => Class::Lines,
        _ => return Err(Fail::from("no such class")),
    };
    let (kind, path) = (word(alloc, kind)?, word(alloc, path)?);
    added(alloc, agent.add(alloc, site, class, &kind, &path))
}

fn steps(alloc: Global, site: &mut SiteMem, agent: &mut Agent, adaptor: u32) -> Result<String, Fail>
    requires { agent.old.ready ≡ true }
{
    if adaptor >= agent.adaptors() {
        return told(alloc, "no adaptor", &[]);
    }
    if !agent.is_read_on(adaptor) {
        return told(alloc, "not read", &[]);
    }
    stepped(alloc, agent.step(alloc, site, adaptor))
}

// - `post`, `reply NOW`, `poll`, `lengths` and `settle NOW`: what it delivers.
// - `fill`, `step ADAPTOR` and `turn NOW`: what it reads, and a whole turn.
// - `add CLASS TYPE PATH`, where the class is `plain`, `rotating` or `lines`, and `command LINE`.
// - `drain NOW READS POLLS`, and `pause`: a second goes by.
fn calls(
    alloc: Global,
    site: &mut SiteMem,
    agent: &mut Agent,
    verb: &str,
    text: &str,
) -> Result<String, Fail> {
    if !agent.ready() {
        return told(alloc, "not ready", &[]);
    }
    match verb {
        "fill" => filled(alloc, agent.fill(alloc, site)),
        "post" => posted(alloc, agent.post(alloc, site)),
        "reply" => answered(alloc, agent.post_reply(alloc, site, text.parse()?)),
        "poll" => polled(alloc, agent.poll(alloc, site)),
        "lengths" => lengths(alloc, agent.poll_reply(alloc, site)),
        "settle" => settled(alloc, agent.settle(alloc, site, text.parse()?)),
        "turn" => match agent.turn(alloc, site, text.parse()?) {
            Ok(_) => told(alloc, "done", &[]),
            Err(fault) => faulted(alloc, fault),
        },
        "command" => replied(alloc, agent.command(alloc, site, text.as_bytes())),
        "step" => steps(alloc, site, agent, text.parse()?),
        "add" => adds(alloc, site, agent, text),
        "drain" => drains(alloc, site, agent, text),
        "pause" => match site.pause(alloc, agent.who(), 1_000) {
            Ok(()) => told(alloc, "done", &[]),
            Err(_) => told(alloc, "refused", &[]),
        },
        _ => Err(Fail::from("no such verb of an agent")),
    }
}

// - `ready`: `yes`, or `no`.
// - `state ADAPTOR`, and `ends ADAPTOR`: the ends that are read and committed.
pub(crate) fn asks(
    alloc: Global,
    site: &mut SiteMem,
    agent: &mut Agent,
    verb: &str,
    text: &str,
) -> Result<String, Fail> {
    if verb == "ready" {
        return told(alloc, if agent.ready() { "yes" } else { "no" }, &[]);
    }
    if verb != "state" && verb != "ends" {
        return calls(alloc, site, agent, verb, text);
    }
    let adaptor: u32 = text.parse()?;
    if adaptor >= agent.adaptors() {
        return told(alloc, "no adaptor", &[]);
    }
    if verb == "state" {
        return state_text(alloc, agent.state(adaptor));
    }
    told(
        alloc,
        "at",
        &[agent.read_end(adaptor), agent.committed_end(adaptor)],
    )
}
