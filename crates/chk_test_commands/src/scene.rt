//! The scene of the commands.
use crate::datagrams::{closed, keeps};
use crate::logs::{answer_text, log_text};
use crate::records::about_records;
use crate::replies::add_reply;
use crate::rounds::round_of;
use crate::runs::{printed_size, run_command};
use chk_test_agent::Actors;
use chk_test_engine::{Outside, Parts, Scene, plain};
use std::alloc::Global;
use std::test::Fail;

/// A site on which commands run, and the agents h1 to h3 and the collectors c1 and c2 act.
#[derive(Drop)]
pub struct CommandScene {
    outside: Outside,
    actors: Actors,
}

// - `run WORDS`: the status and what was printed.
// - `within ROWS QUEUE`: how a round of these limits ends.
// - `reply CALL MESSAGE CODE BODY`: what c1 replies before the call of this number.
fn act(outside: &mut Outside, verb: &str, text: &str) -> Result<Option<String>, Fail> {
    match verb {
        "run" => Ok(Some(run_command(outside, text)?)),
        "within" => Ok(Some(round_of(outside, text)?)),
        "reply" => {
            add_reply(outside.alloc, &mut outside.next, text)?;
            Ok(Some(plain(outside.alloc, "done")?))
        }
        _ => Ok(None),
    }
}

// - `printed`: how many bytes all runs printed.
// - `read PATH`: the first bytes of a log.
// - `answered`: what the first answer was.
// - `prefix`, `whole`, `sizes` and `sinks`: what is archived, and what isn't yet.
// - `closed` and `keeps BYTES`: what is in closed buffers of datagrams.
fn ask(outside: &mut Outside, verb: &str, text: &str) -> Result<Option<String>, Fail> {
    match verb {
        "printed" => Ok(Some(printed_size(outside)?)),
        "read" => Ok(Some(log_text(outside, text)?)),
        "answered" => Ok(Some(answer_text(outside)?)),
        "prefix" | "whole" | "sizes" | "sinks" => Ok(Some(about_records(outside, verb, text)?)),
        "closed" => Ok(Some(closed(outside)?)),
        "keeps" => Ok(Some(keeps(outside, text)?)),
        _ => Ok(None),
    }
}

impl Scene for CommandScene {
    fn empty(alloc: Global) -> Result<Box<Self>, Fail> {
        let scene = CommandScene {
            outside: Outside::new(alloc)?,
            actors: Actors::new(),
        };
        Ok(Box::new(alloc, scene)?)
    }

    fn outside(&mut self) -> &mut Outside {
        &mut self.outside
    }

    fn step(&mut self, _parts: &Parts, verb: &str, text: &str) -> Result<Option<String>, Fail> {
        if let Some(given) = act(&mut self.outside, verb, text)? {
            return Ok(Some(given));
        }
        if let Some(given) = ask(&mut self.outside, verb, text)? {
            return Ok(Some(given));
        }
        self.actors.step(&mut self.outside, verb, text)
    }
}
