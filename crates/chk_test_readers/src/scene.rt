//! The scene of a log that writers change, and a reader of it.

use crate::readers::Reader;
use chk_bytes::{Bytes, Word};
use chk_site::{OutsideFault, Role, Site, Who};
use chk_tail::Step;
use chk_test_engine::{Outside, Parts, Scene, plain, shown};
use std::alloc::Global;
use std::test::Fail;

/// A reader of the log /a.log.
#[derive(Drop)]
pub struct ReaderScene {
    outside: Outside,
    reader: Reader,
    // What `reads` was given.
    given: Bytes,
}

// A reader of this kind, and the suffix of a rotation.
#[derive(Clone, Copy)]
struct Way<'a> {
    kind: &'a str,
    after: &'a str,
}

fn step_text(alloc: Global, given: Result<Step, OutsideFault>) -> Result<String, Fail> {
    match given {
        Ok(Step::Bytes { bytes, end }) => {
            let bytes = shown(alloc, bytes.as_slice())?;
            Ok(format!(in alloc; "[{bytes}] {end}")?)
        }
        Ok(Step::AtEnd) => plain(alloc, "end"),
        Ok(Step::Shrank { had, is }) => Ok(format!(in alloc; "shrank {had} {is}")?),
        Err(OutsideFault::Outside { call }) => {
            let name = call.name();
            Ok(format!(in alloc; "failed {name}")?)
        }
        Err(OutsideFault::NoMemory) => plain(alloc, "no memory"),
    }
}

impl ReaderScene {
    fn steps(&mut self) -> Result<Result<Step, OutsideFault>, Fail> {
        self.outside.begin();
        let alloc = self.outside.alloc;
        let who = Who {
            role: Role::Agent,
            name: Word::new(alloc, b"h1")?,
        };
        Ok(self.reader.step(alloc, &mut self.outside.site, &who))
    }

    fn grows(&mut self, path: &str, bytes: &[u8]) -> Result<(), Fail> {
        let alloc = self.outside.alloc;
        let who = Who {
            role: Role::Writer,
            name: Word::new(alloc, b"log")?,
        };
        let grown = self.outside.site.log_append(alloc, &who, path, bytes);
        Ok(grown.map_err(|_| "no growth")?)
    }

    // The ends of the pieces that are given up to the end. The end `place` stands as `N`, and `-` for
    // no piece.
    fn reads(&mut self, place: u64) -> Result<String, Fail> {
        let alloc = self.outside.alloc;
        let mut ends = String::new(alloc);
        for _step in 0..64 {
            match self.steps()? {
                Ok(Step::Bytes { bytes, end }) => {
                    self.given.push_all(bytes.as_slice())?;
                    if end == place {
                        ends.push_str("N ")?;
                    } else {
                        write!(&mut ends, "{end} ")?;
                    }
                    if end != self.given.len() as u64 {
                        return plain(alloc, "the end of other bytes");
                    }
                }
                Ok(Step::AtEnd) if ends.as_str().is_empty() => return plain(alloc, "-"),
                Ok(Step::AtEnd) => return plain(alloc, ends.as_str().trim_end()),
                other => return step_text(alloc, other),
            }
        }
        Err(Fail::from("no end"))
    }

    // The log is read when it has as many bytes as `place` says, and again when it is whole. In between
    // it is rotated, if `after` is a suffix.
    fn halves(
        &mut self,
        parts: &Parts,
        way: Way<'_>,
        log: &[u8],
        place: u64,
    ) -> Result<String, Fail> {
        let alloc = self.outside.alloc;
        let path = format!(in alloc; "/{place}.log")?;
        let path = path.as_str();
        self.reader = Reader::at(alloc, path, way.kind, "0 0 -")?;
        self.given = Bytes::new(alloc);
        self.grows(path, log.get(..place as usize).ok_or("no such place")?)?;
        let first = self.reads(place)?;
        if way.after != "-" {
            let turned = format!(in alloc; "{path} {}", way.after)?;
            let _done = self.outside.step(parts, "turn", turned.as_str())?;
            self.outside.begin();
        }
        self.grows(path, log.get(place as usize..).ok_or("no such place")?)?;
        let second = self.reads(place)?;
        if self.given.as_slice() != log {
            return plain(alloc, "other bytes");
        }
        Ok(format!(in alloc; "{first} then {second}")?)
    }

    // `FROM TO AFTER KIND LOG`: what is answered at each place from one to the other, if that is the
    // same.
    fn halved(&mut self, parts: &Parts, text: &str) -> Result<String, Fail> {
        let alloc = self.outside.alloc;
        let mut words = text.split(' ');
        let from: u64 = words.next().ok_or("no first place")?.parse()?;
        let to: u64 = words.next().ok_or("no last place")?.parse()?;
        let after = words.next().ok_or("no suffix")?;
        let kind = words.next().ok_or("no kind")?;
        let log = parts.bytes(alloc, words.next().ok_or("no log")?)?;
        let way = Way { kind, after };
        let all = self.halves(parts, way, log.as_slice(), from)?;
        for place in from.saturating_add(1)..=to {
            let given = self.halves(parts, way, log.as_slice(), place)?;
            if given.as_str() != all.as_str() {
                return Ok(format!(in alloc; "{given} at {place}")?);
            }
        }
        Ok(all)
    }
}

impl Scene for ReaderScene {
    fn empty(alloc: Global) -> Result<Box<ReaderScene>, Fail> {
        let scene = ReaderScene {
            outside: Outside::new(alloc)?,
            reader: Reader::at(alloc, "/a.log", "base", "0 0 -")?,
            given: Bytes::new(alloc),
        };
        Ok(Box::new(alloc, scene)?)
    }

    fn outside(&mut self) -> &mut Outside {
        &mut self.outside
    }

    // - `open KIND OFFSET FIRST AFTER`: another reader begins there.
    // - `step`: what it gives.
    // - `reads`: up to which ends it gives pieces, and `given PARTS`: what bytes these are.
    // - `halved FROM TO AFTER KIND LOG`: up to which ends a log is read before and behind a place.
    fn step(&mut self, parts: &Parts, verb: &str, text: &str) -> Result<Option<String>, Fail> {
        let alloc = self.outside.alloc;
        let given = match verb {
            "step" => step_text(alloc, self.steps()?)?,
            "place" | "back" | "rewind" | "forget" => self.reader.moves(alloc, verb, text)?,
            "reads" => self.reads(0)?,
            "halved" => self.halved(parts, text)?,
            "given" if parts.bytes(alloc, text)?.as_slice() != self.given.as_slice() => {
                shown(alloc, self.given.as_slice())?
            }
            "given" => plain(alloc, "done")?,
            "open" => {
                let (kind, place) = text.split_once(' ').ok_or("no place")?;
                self.reader = Reader::at(alloc, "/a.log", kind, place)?;
                plain(alloc, "done")?
            }
            _ => return Ok(None),
        };
        Ok(Some(given))
    }
}
