//! The agents h1, h2 and h3 and the collectors c1 and c2 over one site.

use crate::agents::asks;
use crate::answers::faulted;
use crate::collectors::Collectors;
use crate::starts::started;
use crate::words::{parted, told};
use chk_agent::Agent;
use chk_site_mem::SiteMem;
use chk_test_engine::Outside;
use std::alloc::Global;
use std::test::Fail;

/// Agents whose start wasn't refused, and the collectors.
#[derive(Drop)]
pub struct Actors {
    first: Option<Agent>,
    second: Option<Agent>,
    third: Option<Agent>,
    collectors: Collectors,
}

impl Actors {
    /// None of them has started.
    pub fn new() -> Actors {
        Actors {
            first: None,
            second: None,
            third: None,
            collectors: Collectors::new(),
        }
    }

    fn agent(&mut self, name: &str) -> &mut Option<Agent> {
        match name {
            "h1" => &mut self.first,
            "h2" => &mut self.second,
            _ => &mut self.third,
        }
    }

    // `start ROWS QUEUE CLUSTER ADDRESSES`, and the verbs of an agent.
    fn asks_agent(
        &mut self,
        alloc: Global,
        site: &mut SiteMem,
        name: &str,
        asked: &str,
    ) -> Result<String, Fail> {
        let (verb, text) = parted(asked);
        if verb == "start" {
            return match started(alloc, site, name, text)? {
                Ok(agent) => {
                    let count = agent.adaptors() as u64;
                    *self.agent(name) = Some(agent);
                    told(alloc, "started", &[count])
                }
                Err(fault) => {
                    *self.agent(name) = None;
                    faulted(alloc, fault)
                }
            };
        }
        match self.agent(name) {
            Some(agent) => asks(alloc, site, agent, verb, text),
            None => told(alloc, "no agent", &[]),
        }
    }

    /// What the one of this name answers, who is asked `VERB TEXT`. None: nobody has this name.
    pub fn step(
        &mut self,
        outside: &mut Outside,
        name: &str,
        asked: &str,
    ) -> Result<Option<String>, Fail> {
        let alloc = outside.alloc;
        match name {
            "h1" | "h2" | "h3" => {
                outside.begin();
                Ok(Some(self.asks_agent(alloc, &mut outside.site, name, asked)?))
            }
            "c1" | "c2" => {
                outside.begin();
                let (verb, text) = parted(asked);
                let site = &mut outside.site;
                Ok(Some(self.collectors.asks(alloc, site, name, verb, text)?))
            }
            _ => Ok(None),
        }
    }
}
