//! The command of a collector, and one turn of it.
use crate::answers::{collector_of, end_text};
use chk_bytes::Word;
use chk_collector::Collector;
use chk_collector_run::{collect, collector_turn};
use chk_sink::SinkFault;
use chk_site::{Act, Call};
use chk_site_mem::SiteMem;
use chk_tee_sender::Tees;
use chk_test_engine::{Outside, Parts, Scene};
use std::alloc::Global;
use std::test::Fail;

// The milliseconds after which a sink is closed.
const ROTATE: u64 = 300_000;

/// The collector c1 at its port c1:80, without subscribers.
#[derive(Drop)]
pub struct TurnScene {
    outside: Outside,
}

// The command with so many turns of at most so many messages.
fn run(
    alloc: Global,
    site: &mut SiteMem,
    turns: u64,
    most: u64,
) -> Result<Result<(), SinkFault>, Fail> {
    let who = collector_of(alloc, b"c1")?;
    let door = Word::new(alloc, b"c1:80".as_slice())?;
    let mut tees = Tees::new(alloc, Vec::new(alloc));
    Ok(collect(alloc, site, &who, ROTATE, turns, most, &door, &mut tees))
}

// A start, and one turn of at most so many messages.
fn turn(alloc: Global, site: &mut SiteMem, most: u64) -> Result<Result<(), SinkFault>, Fail> {
    let who = collector_of(alloc, b"c1")?;
    let door = Word::new(alloc, b"c1:80".as_slice())?;
    let mut tees = Tees::new(alloc, Vec::new(alloc));
    let mut collector = match Collector::start(alloc, site, &who, ROTATE) {
        Ok(collector) => collector,
        Err(fault) => return Ok(Err(fault)),
    };
    Ok(collector_turn(alloc, site, &who, &mut collector, &door, most, &mut tees))
}

// How long the last taking waited.
fn last_wait(acts: &[Act]) -> u64 {
    let mut wait = 0;
    for act in acts {
        if act.call == Call::Take {
            wait = act.number;
        }
    }
    wait
}

impl TurnScene {
    // `TURNS MOST`.
    fn collect(&mut self, text: &str) -> Result<String, Fail> {
        let alloc = self.outside.alloc;
        let (turns, most) = text.split_once(' ').ok_or("no count of messages")?;
        self.outside.begin();
        let site = &mut self.outside.site;
        end_text(alloc, &run(alloc, site, turns.parse()?, most.parse()?)?)
    }

    fn turn(&mut self, most: &str) -> Result<String, Fail> {
        let alloc = self.outside.alloc;
        self.outside.begin();
        end_text(alloc, &turn(alloc, &mut self.outside.site, most.parse()?)?)
    }
}

impl Scene for TurnScene {
    fn empty(alloc: Global) -> Result<Box<Self>, Fail> {
        let scene = TurnScene {
            outside: Outside::new(alloc)?,
        };
        Ok(Box::new(alloc, scene)?)
    }

    fn outside(&mut self) -> &mut Outside {
        &mut self.outside
    }

    // - `collect TURNS MOST`: the command with so many turns of at most so many messages.
    // - `turn MOST`: a start, and one turn.
    // - `waited`: how many milliseconds the last taking waited.
    fn step(&mut self, _parts: &Parts, verb: &str, text: &str) -> Result<Option<String>, Fail> {
        let alloc = self.outside.alloc;
        match verb {
            "collect" => Ok(Some(self.collect(text)?)),
            "turn" => Ok(Some(self.turn(text)?)),
            "waited" => {
                let wait = last_wait(self.outside.acts());
                Ok(Some(format!(in alloc; "{wait}")?))
            }
            _ => Ok(None),
        }
    }
}
