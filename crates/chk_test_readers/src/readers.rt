//! The readers of a log: of its base file alone, and of its generations too.

use chk_bytes::Word;
use chk_rotate::{Place, RotTail};
use chk_site::{OutsideFault, Suffix, Who};
use chk_site_mem::SiteMem;
use chk_tail::{Step, Tail};
use chk_test_engine::plain;
use std::alloc::Global;
use std::test::Fail;

#[derive(Drop)]
pub(crate) enum Reader {
    Base(Tail),
    All(RotTail),
}

// `OFFSET FIRST AFTER`. `-` stands for no generation.
fn place_in(alloc: Global, text: &str) -> Result<Place, Fail> {
    let mut words = text.split(' ');
    let offset = words.next().ok_or("no offset")?.parse()?;
    let first = words.next().ok_or("no first offset")?.parse()?;
    let after = match words.next().ok_or("no generation")? {
        "-" => None,
        suffix => Some(Suffix::new(alloc, suffix.as_bytes())?),
    };
    Ok(Place {
        after,
        first,
        offset,
    })
}

fn place_text(alloc: Global, place: &Place) -> Result<String, Fail> {
    let after = match &place.after {
        Some(suffix) => suffix.as_str(),
        None => "-",
    };
    let Place { first, offset, .. } = place;
    Ok(format!(in alloc; "{offset} {first} {after}")?)
}

impl Reader {
    // The kind is `base` or `all`, or with lines `base-lines` or `all-lines`.
    pub(crate) fn at(alloc: Global, path: &str, kind: &str, place: &str) -> Result<Reader, Fail> {
        let place = place_in(alloc, place)?;
        let path = Word::new(alloc, path.as_bytes())?;
        let lines = kind.ends_with("-lines");
        if place.first > place.offset {
            return Err(Fail::from("a place before its generation"));
        }
        if kind.starts_with("all") {
            return Ok(Reader::All(RotTail::new(alloc, path, lines, place)?));
        }
        let at = place.offset - place.first;
        Ok(Reader::Base(Tail::new(path, lines, place.first, at)))
    }

    pub(crate) fn step(
        &mut self,
        alloc: Global,
        site: &mut SiteMem,
        who: &Who,
    ) -> Result<Step, OutsideFault> {
        match self {
            Reader::Base(reader) => reader.step(alloc, site, who),
            Reader::All(reader) => reader.step(alloc, site, who),
        }
    }

    // - `place OFFSET`: the place as a checkpoint has it, offset, first and after.
    // - `back OFFSET`, `forget OFFSET` and `rewind MARKS OFFSET`.
    pub(crate) fn moves(&mut self, alloc: Global, verb: &str, text: &str) -> Result<String, Fail> {
        let (first, offset) = text.split_once(' ').unwrap_or((text, text));
        let at: u64 = offset.parse()?;
        match self {
            Reader::Base(reader) if verb == "back" => reader.back(at),
            Reader::All(reader) => match verb {
                "rewind" => reader.rewind(first.parse()?, at),
                "forget" => reader.forget(at),
                _ if !reader.keeps(at) => return plain(alloc, "unknown"),
                "place" => return place_text(alloc, &reader.place_of(at)?),
                _ => reader.back(at),
            },
            _ => return plain(alloc, "unknown"),
        }
        plain(alloc, "done")
    }
}
