//! The lines of a text, and how an agent runs them.

ghost use Rattle.std.specs.Prelude.{◌≡◌, ◌≤◌, ◌+◌, ◌==◌, ◌<◌, ◌^◌, ℕ, List, [], ◌∷◌, true, length, IfOk};
ghost use Rattle.chk_bytes.specs.Words.{parts_at};
ghost use Rattle.chk_site.specs.Site.{Adds};
ghost use Rattle.chk_site.specs.Runs.{Leads};
ghost use Rattle.chk_world.specs.Places.{Talking};
ghost use Rattle.chk_agent.specs.States.{process};
ghost use Rattle.chk_agent.specs.Facts.{Matches};
ghost use Rattle.chk_agent.specs.Faults.{AgentCause, FailsLast, IsUndamaged};
ghost use Rattle.chk_agent_run.specs.Lines.{lines_from, AreRun};

use chk_agent::{Agent, AgentFault, Reply, Then};
use chk_bytes::{Bytes, line_size};
use chk_site::Site;
use std::alloc::Global;

// The line of a text that begins at a place, without its newline.
pub(crate) fn line_at(text: &[u8], at: usize) -> &[u8]
    requires { at ≤ length text.now }
    ensures lines { lines_from at text.now ≡ result.now ∷ lines_from (at + length result.now + 1) text.now }
    ensures within { at + length result.now ≤ length text.now }
{
    let rest = &text[at..];
    match line_size(rest) {
        Some(size) => &rest[..size],
        None => rest,
    }
}

// Runs the lines of a text in order, up to one that ends the message. The reply is all their
// texts.
pub(crate) fn run_lines<S: Site>(
    alloc: Global,
    site: &mut S,
    agent: &mut Agent,
    text: &[u8],
) -> Result<Reply, AgentFault>
    requires ready { agent.old.ready ≡ true }
    ensures lines { AreRun (parts_at 10 text.now) [] agent.old result agent.new (S.told site.old) (S.told site.new) }
    ensures told { (stamped : List (List ℕ)) → Adds (S.told site.old) (S.told site.new)
        (Leads (Talking stamped (process agent.old)) (Matches stamped agent.old) (Matches stamped agent.new)) }
    ensures source { agent.new.source ≡ agent.old.source }
    ensures ready { IfOk result (λ _. agent.new.ready ≡ true) }
    ensures undamaged { IsUndamaged result }
    ensures last { Adds (S.told site.old) (S.told site.new) (FailsLast result) }
    ensures cause { AgentCause (S.fault_count site.old) (S.fault_count site.new) result }
{
    let mut answers = Bytes::new(alloc);
    let mut at = 0;
    while at <= text.len() {
        let line = line_at(text, at);
        let reply = agent.command(alloc, site, line)?;
        answers.push_all(reply.text.as_slice())?;
        match reply.then {
            Then::Go => {}
            then => {
                return Ok(Reply {
                    text: answers,
                    then,
                });
            }
        }
        at += line.len() + 1;
    }
    Ok(Reply {
        text: answers,
        then: Then::Go,
    })
}
