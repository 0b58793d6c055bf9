//! The sinks of a collector, and the committed lengths that a new start must keep.
use crate::answers::{collector_of, end_text, fault_text};
use crate::lengths::{are_kept, are_settled, lengths};
use chk_bytes::Stem;
use chk_chunk::read_post;
use chk_sink::{SinkFault, Sinks};
use chk_site_mem::SiteMem;
use chk_test_engine::{Outside, Parts, Scene, plain};
use std::alloc::Global;
use std::test::Fail;

// The milliseconds after which a sink is closed.
const ROTATE: u64 = 100;

// The post of the chunk `hello\n`.
const POST: &[u8] =
    b"\0\0\0\x01\0\0\0\x1a\x01\0\0\0\0\0\0\0\x06\0\x02h1\0\x03Log\0\x06/a.log\0\0\0\x06hello\n";

/// The sinks of the collector c1; none before its start, and if the start was refused.
#[derive(Drop)]
pub struct SinkScene {
    outside: Outside,
    sinks: Option<Sinks>,
    noted: Vec<u64>,
}

fn put_chunk(
    alloc: Global,
    site: &mut SiteMem,
    sinks: &mut Sinks,
) -> Result<Result<(Stem, u64), SinkFault>, Fail> {
    let mut post = read_post(POST)?;
    match post.next() {
        Some(chunk) => Ok(sinks.put(alloc, site, &chunk)),
        None => Err(Fail::from("no chunk")),
    }
}

// The number of starts, the sink's number, and where the chunk ends in it.
fn put(alloc: Global, site: &mut SiteMem, sinks: &mut Sinks) -> Result<String, Fail> {
    match put_chunk(alloc, site, sinks)? {
        Ok((stem, end)) => {
            let (born, number) = (stem.born(), stem.number());
            Ok(format!(in alloc; "{born} {number} {end}")?)
        }
        Err(fault) => fault_text(alloc, &fault),
    }
}

fn committed(
    alloc: Global,
    site: &mut SiteMem,
    sinks: &Sinks,
    number: &str,
) -> Result<String, Fail> {
    let stem = Stem::new("c1", 1, number.parse()?).ok_or("no stem")?;
    match sinks.committed(alloc, site, stem) {
        Ok(length) => Ok(format!(in alloc; "{length}")?),
        Err(fault) => fault_text(alloc, &fault),
    }
}

fn work(
    alloc: Global,
    site: &mut SiteMem,
    sinks: &mut Sinks,
    verb: &str,
    text: &str,
) -> Result<String, Fail> {
    match verb {
        "put" => put(alloc, site, sinks),
        "commit" => end_text(alloc, &sinks.commit(alloc, site)),
        "tick" => end_text(alloc, &sinks.tick(alloc, site, text.parse()?)),
        "close" => end_text(alloc, &sinks.close(alloc, site)),
        _ => committed(alloc, site, sinks, text),
    }
}

impl SinkScene {
    fn start(&mut self) -> Result<String, Fail> {
        let alloc = self.outside.alloc;
        let who = collector_of(alloc, b"c1")?;
        self.outside.begin();
        self.sinks = None;
        match Sinks::start(alloc, &mut self.outside.site, &who, ROTATE) {
            Ok(sinks) => {
                self.sinks = Some(sinks);
                plain(alloc, "done")
            }
            Err(fault) => fault_text(alloc, &fault),
        }
    }

    fn work(&mut self, verb: &str, text: &str) -> Result<String, Fail> {
        let alloc = self.outside.alloc;
        self.outside.begin();
        match &mut self.sinks {
            Some(sinks) => work(alloc, &mut self.outside.site, sinks, verb, text),
            None => plain(alloc, "no sinks"),
        }
    }

    fn check(&self, verb: &str) -> Result<String, Fail> {
        let (alloc, site) = (self.outside.alloc, &self.outside.site);
        let holds = match verb {
            "kept" => are_kept(self.noted.as_slice(), lengths(alloc, site)?.as_slice()),
            _ => are_settled(alloc, site)?,
        };
        plain(alloc, if holds { "done" } else { "not so" })
    }
}

impl Scene for SinkScene {
    fn empty(alloc: Global) -> Result<Box<Self>, Fail> {
        let scene = SinkScene {
            outside: Outside::new(alloc)?,
            sinks: None,
            noted: Vec::new(alloc),
        };
        Ok(Box::new(alloc, scene)?)
    }

    fn outside(&mut self) -> &mut Outside {
        &mut self.outside
    }

    // - `start`: a collector starts.
    // - `put`, `commit`, `tick NOW`, `close`; `committed N`: the committed length of the first start's
    //   sink of this number.
    // - `note`: notes the committed lengths. `kept`: none is less than was noted.
    // - `settled`: no sink is under writing, and none has a mark.
    fn step(&mut self, _parts: &Parts, verb: &str, text: &str) -> Result<Option<String>, Fail> {
        let alloc = self.outside.alloc;
        match verb {
            "start" => Ok(Some(self.start()?)),
            "put" | "commit" | "tick" | "close" | "committed" => Ok(Some(self.work(verb, text)?)),
            "kept" | "settled" => Ok(Some(self.check(verb)?)),
            "note" => {
                self.noted = lengths(alloc, &self.outside.site)?;
                Ok(Some(plain(alloc, "done")?))
            }
            _ => Ok(None),
        }
    }
}
