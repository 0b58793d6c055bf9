//! The calls of the archive job, and what they answer.
ghost use Rattle.std.specs.Prelude.{◌≡◌, ◌≤◌};
ghost use Rattle.chk_chunk.specs.Keys.{record_limit};
ghost use Rattle.chk_world.specs.Sight.{job};

use crate::job::{SINK, archive_folder, archiver};
use crate::segments::{adds, begins, holds_back, publishes};
use crate::telling::{book_text, bytes_text, fault_text, number_text, report_text};
use chk_archive::archive;
use chk_book::{JobFault, load_book};
use chk_record_index::Heads;
use chk_record_reader::archive_of;
use chk_site::Who;
use chk_site_mem::SiteMem;
use std::alloc::Global;
use std::test::Fail;

// How many heads the sink has.
fn heads(alloc: Global, site: &mut SiteMem, who: &Who, most: u32) -> Result<String, JobFault>
    requires { most ≤ record_limit }
{
    let mut heads = Heads::new(alloc);
    let count = heads.gather(alloc, site, who, SINK, 0, most)?;
    Ok(number_text(alloc, count)?)
}

// /a.log of this source.
fn archived(
    alloc: Global,
    site: &mut SiteMem,
    who: &Who,
    source: &str,
) -> Result<String, JobFault> {
    let folder = archive_folder();
    let book = load_book(alloc, site, who, folder)?;
    let bytes = archive_of(&book, alloc, site, who, folder, source, "Log", "/a.log")?;
    Ok(bytes_text(alloc, bytes.as_slice())?)
}

fn loaded(alloc: Global, site: &mut SiteMem, who: &Who, verb: &str) -> Result<String, JobFault> {
    let book = load_book(alloc, site, who, archive_folder())?;
    if verb == "book" {
        return Ok(book_text(alloc, &book)?);
    }
    Ok(number_text(alloc, book.archived_end("h1", "Log", "/a.log"))?)
}

fn runs(alloc: Global, site: &mut SiteMem, who: &Who) -> Result<String, JobFault>
    requires { who.now ≡ job }
{
    let report = archive(alloc, site, who)?;
    Ok(report_text(alloc, &report)?)
}

// - `book`, `end`: the archive's book, or the end of /a.log of h1 there.
// - `archive SOURCE`: the archive of /a.log of this source.
// - `heads MOST`: how many heads the sink has, if a record may have at most so many bytes.
fn reads(
    alloc: Global,
    site: &mut SiteMem,
    who: &Who,
    verb: &str,
    text: &str,
) -> Result<String, JobFault> {
    match verb {
        "archive" => archived(alloc, site, who, text),
        "heads" => heads(alloc, site, who, text.parse().unwrap_or(0).min(1_048_576)),
        _ => loaded(alloc, site, who, verb),
    }
}

// - `part NAME START`, `aside NAME START`: the book of a segment of the first six bytes of this log of h1, which are of
//   its stream or held back.
// - `begins NEXT`: a segment is begun by a book with this next number.
// - `publishes`: a book without segments is published.
fn writes(
    alloc: Global,
    site: &mut SiteMem,
    who: &Who,
    verb: &str,
    text: &str,
) -> Result<String, JobFault> {
    let (name, number) = text.split_once(' ').unwrap_or(("", text));
    match verb {
        "part" => adds(alloc, site, who, name, number.parse().unwrap_or(0)),
        "aside" => holds_back(alloc, site, who, name, number.parse().unwrap_or(0)),
        "begins" => begins(alloc, site, who, number.parse().unwrap_or(0)),
        _ => publishes(alloc, site, who),
    }
}

// What the calls of this verb answer, or why one is refused. `run` answers the report of a run.
pub(crate) fn answer(
    alloc: Global,
    site: &mut SiteMem,
    verb: &str,
    text: &str,
) -> Result<String, Fail> {
    let who = archiver(alloc)?;
    let given = match verb {
        "run" => runs(alloc, site, &who),
        "part" | "aside" | "begins" | "publishes" => writes(alloc, site, &who, verb, text),
        _ => reads(alloc, site, &who, verb, text),
    };
    match given {
        Ok(text) => Ok(text),
        Err(fault) => fault_text(alloc, fault),
    }
}
