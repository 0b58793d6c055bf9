//! The tee: its filters, its messages, its subscribers, and what they are sent.
use crate::passing::{is_taken, pass, sent_to};
use chk_bytes::Bytes;
use chk_chunk::ChunkRef;
use chk_tee::{Teed, read_filter, read_tee};
use chk_tee_sender::{Tees, read_subscribers};
use chk_test_engine::{Outside, Parts, Scene, plain};
use std::alloc::Global;
use std::test::Fail;

/// The subscribers of the collector c1.
#[derive(Drop)]
pub struct TeeScene {
    outside: Outside,
    tees: Tees,
}

// Whether the chunk `hello` of h1, Log, /a.log passes this filter.
fn try_filter(alloc: Global, text: &str) -> Result<String, Fail> {
    let chunk = ChunkRef {
        source: "h1",
        kind: "Log",
        name: "/a.log",
        start: 0,
        cluster: "none",
        seq: 6,
        body: b"hello\n",
    };
    match read_filter(alloc, text.as_bytes()) {
        Ok(filter) => plain(
            alloc,
            if filter.passes(&chunk) {
                "passes"
            } else {
                "stays"
            },
        ),
        Err(fault) => Ok(format!(in alloc; "{fault:?}")?),
    }
}

fn chunk_text(alloc: Global, teed: &Teed<'_>) -> Result<String, Fail> {
    let (stem, offset, seq) = (teed.stem, teed.offset, teed.chunk.seq);
    let (source, kind, name) = (teed.chunk.source, teed.chunk.kind, teed.chunk.name);
    let size = teed.chunk.body.len();
    Ok(format!(in alloc; "{stem} {offset} {source} {kind} {name} {seq} {size}")?)
}

// The first chunk of a message, or the fault.
fn read_message(alloc: Global, bytes: &[u8]) -> Result<String, Fail> {
    match read_tee(bytes) {
        Ok(mut tee) => match tee.next() {
            Some(teed) => chunk_text(alloc, &teed),
            None => plain(alloc, "no chunk"),
        },
        Err(fault) => Ok(format!(in alloc; "{fault:?}")?),
    }
}

// The bytes with the byte at this place changed.
fn changed(alloc: Global, bytes: &[u8], at: usize, byte: u8) -> Result<Bytes, Fail> {
    let mut all = Bytes::from_slice(alloc, bytes.get(..at).ok_or("no such place")?)?;
    all.push_all(&[byte])?;
    all.push_all(bytes.get(at.saturating_add(1)..).unwrap_or(b""))?;
    Ok(all)
}

// `PARTS`, or `N PARTS` of a front of N bytes, or `AT BYTE PARTS`.
fn read_changed(alloc: Global, parts: &Parts, verb: &str, text: &str) -> Result<String, Fail> {
    if verb == "message" {
        return read_message(alloc, parts.bytes(alloc, text)?.as_slice());
    }
    let (number, text) = text.split_once(' ').ok_or("no number")?;
    let number: usize = number.parse()?;
    if verb == "front" {
        let bytes = parts.bytes(alloc, text)?;
        return read_message(alloc, bytes.as_slice().get(..number).ok_or("no front")?);
    }
    let (byte, text) = text.split_once(' ').ok_or("no byte")?;
    let bytes = parts.bytes(alloc, text)?;
    read_message(
        alloc,
        changed(alloc, bytes.as_slice(), number, byte.parse()?)?.as_slice(),
    )
}

// The addresses in a file of subscribers, or the place of the first wrong line.
fn list_addresses(alloc: Global, file: &[u8]) -> Result<String, Fail> {
    let subscribers = match read_subscribers(alloc, file) {
        Ok(subscribers) => subscribers,
        Err(fault) => return Ok(format!(in alloc; "{fault:?}")?),
    };
    let mut line = String::new(alloc);
    for subscriber in subscribers.as_slice() {
        line.push_str(subscriber.address.as_str())?;
        line.push_str(" ")?;
    }
    plain(
        alloc,
        if line.is_empty() {
            "none"
        } else {
            line.as_str().trim_end()
        },
    )
}

impl TeeScene {
    // `REQUEST with REPLY`: how many were sent to, and how many were dropped.
    fn pass(&mut self, parts: &Parts, text: &str) -> Result<String, Fail> {
        let alloc = self.outside.alloc;
        let (request, reply) = text.split_once(" with ").ok_or("no reply")?;
        let request = parts.bytes(alloc, request)?;
        let reply = parts.bytes(alloc, reply)?;
        self.outside.begin();
        let site = &mut self.outside.site;
        pass(
            alloc,
            site,
            &mut self.tees,
            request.as_slice(),
            reply.as_slice(),
        )
    }

    fn subscribe(&mut self, file: &[u8]) -> Result<String, Fail> {
        let alloc = self.outside.alloc;
        match read_subscribers(alloc, file) {
            Ok(subscribers) => {
                self.tees = Tees::new(alloc, subscribers);
                plain(alloc, "done")
            }
            Err(fault) => Ok(format!(in alloc; "{fault:?}")?),
        }
    }
}

impl Scene for TeeScene {
    fn empty(alloc: Global) -> Result<Box<Self>, Fail> {
        let scene = TeeScene {
            outside: Outside::new(alloc)?,
            tees: Tees::new(alloc, Vec::new(alloc)),
        };
        Ok(Box::new(alloc, scene)?)
    }

    fn outside(&mut self) -> &mut Outside {
        &mut self.outside
    }

    // - `filter TEXT`: whether a chunk passes it.
    // - `message PARTS`: the first chunk of the message. `front N PARTS`: of its first N bytes.
    //   `changed AT BYTE PARTS`: with the byte at this place changed.
    // - `subscribers PARTS`: the addresses in a file of subscribers. `tees PARTS`: they subscribe.
    // - `pass REQUEST with REPLY`: what was written is passed on.
    // - `sent ADDRESS.. with PARTS`: since then this was sent to the first of these addresses, and to
    //   nobody else.
    // - `takes DOOR PARTS`: a watcher there takes this message.
    fn step(&mut self, parts: &Parts, verb: &str, text: &str) -> Result<Option<String>, Fail> {
        let alloc = self.outside.alloc;
        match verb {
            "filter" => Ok(Some(try_filter(alloc, text)?)),
            "message" | "front" | "changed" => Ok(Some(read_changed(alloc, parts, verb, text)?)),
            "subscribers" => {
                let file = parts.bytes(alloc, text)?;
                Ok(Some(list_addresses(alloc, file.as_slice())?))
            }
            "tees" => {
                let file = parts.bytes(alloc, text)?;
                Ok(Some(self.subscribe(file.as_slice())?))
            }
            "pass" => Ok(Some(self.pass(parts, text)?)),
            "sent" => Ok(Some(sent_to(alloc, parts, self.outside.acts(), text)?)),
            "takes" => Ok(Some(is_taken(alloc, parts, &mut self.outside.site, text)?)),
            _ => Ok(None),
        }
    }
}
