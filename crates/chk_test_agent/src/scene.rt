//! The scene of agents and collectors, their runs, drains and checkpoints.

use crate::rehearsals::{Past, Rehearsal, Stage};
use crate::words::told;
use chk_test_engine::{Outside, Parts, Scene};
use std::alloc::Global;
use std::test::Fail;

/// Agents and collectors over a site. Between `rehearse` and `play` the lines are played on a stage of
/// their own, which begins as the one before it; what collectors and writers did there happens again from
/// the call behind `play` on, each act before the same call of the agent.
#[derive(Drop)]
pub struct AgentScene {
    stage: Stage,
    past: Vec<Past>,
    rehearsal: Option<Rehearsal>,
}

impl AgentScene {
    fn rehearses(&mut self, parts: &Parts) -> Result<(), Fail> {
        let alloc = self.stage.outside.alloc;
        self.rehearsal = Some(Rehearsal::behind(alloc, parts, self.past.as_slice())?);
        Ok(())
    }

    fn plays(&mut self) -> Result<(), Fail> {
        let rehearsal = self.rehearsal.take().ok_or("no rehearsal")?;
        self.stage.outside.next.others = rehearsal.others()?;
        Ok(self.past.push(Past::Rehearsed(rehearsal))?)
    }

    fn notes(&mut self, verb: &str, text: &str) -> Result<(), Fail> {
        let line = format!(in self.stage.outside.alloc; "{verb} {text}")?;
        Ok(self.past.push(Past::Line(line))?)
    }
}

impl Scene for AgentScene {
    fn empty(alloc: Global) -> Result<Box<AgentScene>, Fail> {
        let scene = AgentScene {
            stage: Stage::new(alloc)?,
            past: Vec::new(alloc),
            rehearsal: None,
        };
        Ok(Box::new(alloc, scene)?)
    }

    fn outside(&mut self) -> &mut Outside {
        match &mut self.rehearsal {
            Some(rehearsal) => &mut rehearsal.stage.outside,
            None => &mut self.stage.outside,
        }
    }

    fn step(&mut self, parts: &Parts, verb: &str, text: &str) -> Result<Option<String>, Fail> {
        let alloc = self.stage.outside.alloc;
        match verb {
            "rehearse" => {
                self.rehearses(parts)?;
                Ok(Some(told(alloc, "done", &[])?))
            }
            "play" => {
                self.plays()?;
                Ok(Some(told(alloc, "done", &[])?))
            }
            _ => {
                if let Some(rehearsal) = &mut self.rehearsal {
                    return rehearsal.stage.step(parts, verb, text);
                }
                self.notes(verb, text)?;
                self.stage.step(parts, verb, text)
            }
        }
    }
}
