//! What a scene of agents consists of, and what led to it.

use crate::actors::Actors;
use crate::acts::others_in;
use crate::checkpoints::{copies, loads, numbers};
use crate::runs::{answers, pauses, runs};
use crate::sinks::closed;
use crate::words::told;
use chk_site::{Call, Other};
use chk_test_engine::{Outside, Parts, shown};
use std::alloc::Global;
use std::test::Fail;

// Agents and collectors over a site.
#[derive(Drop)]
pub(crate) struct Stage {
    pub(crate) outside: Outside,
    actors: Actors,
}

// A stage on which calls are made one by one. What others do between them happens later, at the same
// places, in calls that make several of them.
#[derive(Drop)]
pub(crate) struct Rehearsal {
    pub(crate) stage: Stage,
    // How many acts there were before it.
    before: usize,
}

// What was done on a stage: a line that was played, or others began to act as in a rehearsal.
#[derive(Drop)]
pub(crate) enum Past {
    Line(String),
    Rehearsed(Rehearsal),
}

impl Rehearsal {
    // It begins as the stage on which all this was done.
    pub(crate) fn behind(alloc: Global, parts: &Parts, past: &[Past]) -> Result<Rehearsal, Fail> {
        let mut stage = Stage::new(alloc)?;
        for part in past {
            stage.repeats(parts, part)?;
        }
        let before = stage.outside.site.acts().len();
        Ok(Rehearsal { stage, before })
    }

    // What others than the agent did in it.
    pub(crate) fn others(&self) -> Result<Vec<Other>, Fail> {
        let outside = &self.stage.outside;
        let acts = outside.site.acts().get(self.before..).ok_or("fewer acts")?;
        others_in(outside.alloc, acts)
    }
}

impl Stage {
    pub(crate) fn new(alloc: Global) -> Result<Stage, Fail> {
        Ok(Stage {
            outside: Outside::new(alloc)?,
            actors: Actors::new(),
        })
    }

    // `COUNT PATH TEXT`: the log grows by this text, unless writers have changed logs so often already.
    fn grows(&mut self, parts: &Parts, text: &str) -> Result<String, Fail> {
        let (count, grown) = text.split_once(' ').ok_or("no log")?;
        let acts = self.outside.site.acts().iter();
        if acts.filter(|act| act.call == Call::LogAppend).count() < count.parse()? {
            let _done = self.outside.step(parts, "log", grown)?;
        }
        told(self.outside.alloc, "done", &[])
    }

    // - `h1 ..` to `h3 ..`, `c1 ..` and `c2 ..`: the verbs of actors.
    // - `run TURNS CONTROL FILE [PAUSE]`: how a run of h1 ends. Of the last run, `answers` has what it
    //   answered at its control port, and `pauses` how many milliseconds it waited each time.
    // - `load AGENT`, `copy FROM TO` and `lines NAME COUNT LINE`: checkpoints.
    // - `grown COUNT PATH TEXT`, and `closed`: what closed sinks have of /a.log.
    pub(crate) fn step(
        &mut self,
        parts: &Parts,
        verb: &str,
        text: &str,
    ) -> Result<Option<String>, Fail> {
        let alloc = self.outside.alloc;
        let given = match verb {
            "run" => runs(&mut self.outside, text)?,
            "answers" => answers(alloc, self.outside.acts())?,
            "pauses" => pauses(alloc, self.outside.acts())?,
            "load" => loads(&mut self.outside, text)?,
            "copy" => copies(&mut self.outside, text)?,
            "lines" => numbers(&mut self.outside, text)?,
            "grown" => self.grows(parts, text)?,
            "closed" => shown(alloc, closed(alloc, &self.outside.site)?.as_slice())?,
            _ => return self.actors.step(&mut self.outside, verb, text),
        };
        Ok(Some(given))
    }

    fn repeats(&mut self, parts: &Parts, past: &Past) -> Result<(), Fail> {
        match past {
            Past::Line(line) => {
                let (verb, text) = line.as_str().split_once(' ').unwrap_or((line.as_str(), ""));
                if self.step(parts, verb, text)?.is_none() {
                    let _given = self.outside.step(parts, verb, text)?;
                }
            }
            Past::Rehearsed(rehearsal) => self.outside.next.others = rehearsal.others()?,
        }
        Ok(())
    }
}
