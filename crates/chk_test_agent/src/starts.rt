//! The start of an agent: who it is, its limits and its collectors.
ghost use Rattle.std.specs.Prelude.{◌≡◌, ◌≤◌, IfOk, IsTrue};
ghost use Rattle.chk_site.specs.declared.acts.Role.TheVariants.{Agent as agent_role};
ghost use Rattle.chk_world.specs.Names.{is_source};

use crate::words::word;
use chk_agent::{Agent, AgentFault, Rules};
use chk_bytes::Word;
use chk_failover::Ring;
use chk_site::{Role, Who};
use chk_site_mem::SiteMem;
use std::alloc::Global;
use std::test::Fail;

// How long an agent waits between polls, in milliseconds. Rows expire after 300,000.
const POLL: u64 = 1_000;

// One of the agents h1, h2 and h3.
pub(crate) fn agent_named(alloc: Global, name: &str) -> Result<Who, Fail>
    ensures role { IfOk result (λ who. who.role ≡ agent_role) }
    ensures name { IfOk result (λ who. IsTrue (is_source who.name)) }
{
    match name {
        "h1" => Ok(Who {
            role: Role::Agent,
            name: Word::new(alloc, b"h1".as_slice())?,
        }),
        "h2" => Ok(Who {
            role: Role::Agent,
            name: Word::new(alloc, b"h2".as_slice())?,
        }),
        "h3" => Ok(Who {
            role: Role::Agent,
            name: Word::new(alloc, b"h3".as_slice())?,
        }),
        _ => Err(Fail::from("no such agent")),
    }
}

// Addresses with commas between them.
pub(crate) fn ring_of(alloc: Global, text: &str) -> Result<Ring, Fail> {
    let mut addresses = Vec::new(alloc);
    for address in text.split(',') {
        addresses.push(word(alloc, address)?)?;
    }
    let count = addresses.as_slice().len();
    if count == 0 || count > 64 {
        return Err(Fail::from("no ring"));
    }
    Ok(Ring::new(addresses, 0))
}

pub(crate) fn rules_of(
    alloc: Global,
    rows: u32,
    queue: u64,
    poll: u64,
    cluster: &str,
) -> Result<Rules, Fail>
    ensures rows { IfOk result (λ rules. 1 ≤ rules.rows) }
    ensures queue { IfOk result (λ rules. 131072 ≤ rules.queue) }
{
    if rows < 1 || queue < 131_072 {
        return Err(Fail::from("no such limits"));
    }
    Ok(Rules {
        rows,
        queue,
        poll,
        expire: 300_000,
        cluster: word(alloc, cluster)?,
    })
}

// The text ends with `ROWS QUEUE CLUSTER ADDRESSES`.
pub(crate) fn started(
    alloc: Global,
    site: &mut SiteMem,
    name: &str,
    text: &str,
) -> Result<Result<Agent, AgentFault>, Fail> {
    let who = agent_named(alloc, name)?;
    let mut words = text.rsplit(' ');
    let ring = ring_of(alloc, words.next().ok_or("no addresses")?)?;
    let cluster = words.next().ok_or("no cluster")?;
    let queue = words.next().ok_or("no queue")?.parse()?;
    let rows = words.next().ok_or("no rows")?.parse()?;
    let rules = rules_of(alloc, rows, queue, POLL, cluster)?;
    Ok(Agent::start(alloc, site, &who, ring, rules))
}
