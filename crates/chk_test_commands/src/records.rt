//! What an archive has of a stream and its log, and which sinks are left.
use crate::reading::{Records, Stream, log_of, records_of};
use chk_bytes::Bytes;
use chk_site::Act;
use chk_site_mem::SiteMem;
use chk_test_engine::{Outside, plain};
use std::alloc::Global;
use std::test::Fail;

// `SOURCE TYPE NAME`.
fn stream_of(text: &str) -> Result<Stream<'_>, Fail> {
    let (source, rest) = text.split_once(' ').ok_or("no type")?;
    let (kind, name) = rest.split_once(' ').ok_or("no name")?;
    Ok(Stream { source, kind, name })
}

fn sizes_text(alloc: Global, sizes: &[usize]) -> Result<String, Fail> {
    let mut text = String::new(alloc);
    for size in sizes {
        write!(text, "{size} ")?;
    }
    Ok(text)
}

// The file is there and a sink, or the mark of one.
fn is_left(site: &SiteMem, name: &[u8]) -> bool {
    let Ok(name) = std::str::from_utf8(name) else {
        return false;
    };
    let is_sink = name.ends_with(".chukwa") || name.ends_with(".done") || name.ends_with(".mark");
    name.starts_with("sinks/") && is_sink && site.file(name).is_some()
}

fn names_left(site: &SiteMem, words: &[Bytes]) -> bool {
    for word in words {
        if is_left(site, word.as_slice()) {
            return true;
        }
    }
    false
}

// An act named a sink, or the mark of one, that is there.
fn are_left(site: &SiteMem, acts: &[Act]) -> bool {
    for act in acts {
        if names_left(site, act.words.as_slice()) {
            return true;
        }
    }
    false
}

fn answer(verb: &str, records: &Records, log: &[u8]) -> &'static str {
    let bytes = records.bytes.as_slice();
    match verb {
        "prefix" if log.starts_with(bytes) => "done",
        "whole" if log == bytes => "done",
        _ => "other records",
    }
}

// - `prefix FOLDER SOURCE TYPE NAME`: the stream's records there, joined, are a prefix of its log.
// - `whole FOLDER SOURCE TYPE NAME`: they are its log.
// - `sizes FOLDER SOURCE TYPE NAME`: how long each of them is.
fn about_stream(outside: &Outside, verb: &str, text: &str) -> Result<String, Fail> {
    let alloc = outside.alloc;
    let (folder, rest) = text.split_once(' ').ok_or("no stream")?;
    let stream = stream_of(rest)?;
    let Some(records) = records_of(alloc, &outside.site, folder, stream)? else {
        return plain(alloc, "damaged");
    };
    if verb == "sizes" {
        return sizes_text(alloc, records.sizes.as_slice());
    }
    let log = log_of(alloc, outside.site.acts(), stream.name)?;
    plain(alloc, answer(verb, &records, log.as_slice()))
}

// The same, and `sinks`: `none` if no sink and no mark of one is left.
pub(crate) fn about_records(outside: &Outside, verb: &str, text: &str) -> Result<String, Fail> {
    if verb != "sinks" {
        return about_stream(outside, verb, text);
    }
    let are_left = are_left(&outside.site, outside.site.acts());
    plain(outside.alloc, if are_left { "some" } else { "none" })
}
