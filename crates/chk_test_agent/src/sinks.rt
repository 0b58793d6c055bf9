//! What the closed sinks have of the log /a.log of h1, up to the first gap.

use chk_bytes::Bytes;
use chk_chunk::read_key;
use chk_salvage::front;
use chk_site_mem::SiteMem;
use std::alloc::Global;
use std::test::Fail;

// A collector has at most so many starts, and so many sinks of a start.
const MOST: u64 = 5;

// Adds what a chunk has past what there is, unless that leaves a gap. Offsets count from the start.
fn add_chunk(seq: u64, start: u64, value: &[u8], whole: &mut Bytes) -> Result<(), Fail> {
    let end = seq.checked_sub(start).ok_or("a chunk before the start")?;
    let begin = end
        .checked_sub(value.len() as u64)
        .ok_or("a chunk before the start")?;
    let there = whole.len() as u64;
    if begin > there || end <= there {
        return Ok(());
    }
    let skipped = there.saturating_sub(begin) as usize;
    Ok(whole.push_all(value.get(skipped..).unwrap_or(b""))?)
}

fn add_sink(alloc: Global, sink: &[u8], whole: &mut Bytes) -> Result<(), Fail> {
    let Ok(held) = front(alloc, sink) else {
        return Err(Fail::from("no sink"));
    };
    for entry in held.entries.as_slice() {
        let Ok(key) = read_key(entry.key) else {
            return Err(Fail::from("no key"));
        };
        if key.source == "h1" && key.name == "/a.log" {
            add_chunk(key.seq, key.start, entry.value, whole)?;
        }
    }
    Ok(())
}

fn add_sinks(alloc: Global, site: &SiteMem, name: &str, whole: &mut Bytes) -> Result<(), Fail> {
    for born in 1..=MOST {
        for number in 1..=MOST {
            let sink = format!(in alloc; "sinks/{name}.{born}.{number}.done")?;
            if let Some(bytes) = site.file(sink.as_str()) {
                add_sink(alloc, bytes, whole)?;
            }
        }
    }
    Ok(())
}

// A sink may continue a later one, so that all are gone through as often as there are of them.
pub(crate) fn closed(alloc: Global, site: &SiteMem) -> Result<Bytes, Fail> {
    let mut whole = Bytes::new(alloc);
    for _pass in 0..MOST {
        add_sinks(alloc, site, "c1", &mut whole)?;
        add_sinks(alloc, site, "c2", &mut whole)?;
    }
    Ok(whole)
}
