//! What one look at a file finds, by its folder and its name.

ghost use Rattle.std.specs.Prelude.{◌≡◌, ◌++◌, IfOk, codes};
ghost use Rattle.chk_site.specs.History.{Every};
ghost use Rattle.chk_site.specs.Site.{Adds, OutsideCause};
ghost use Rattle.chk_world.specs.Sight.{job};
ghost use Rattle.chk_ctl_verify.specs.Calls.{Quiet};
ghost use Rattle.chk_ctl_verify.specs.Files.{MarkSeen, NumberSeen, OpenSeen, SinkSeen};
ghost use Rattle.chk_ctl_verify.specs.Names.{
  folder_of,
  in_sinks,
  AgentFileSeen,
  BornSeen,
  BufferMarkSeen,
  FileSeen,
  MarkOrBornSeen,
  SinkFileSeen,
  UnclosedSeen,
  WaheadFileSeen,
};

use crate::checks::look_at_checkpoint;
use crate::chunks::look_at_sink;
use crate::names::{mark_name, name_of, without_end};
use crate::numbers::{look_at_mark, look_at_number, look_at_open};
use chk_bytes::{NoMemory, Word};
use chk_site::{OutsideFault, Site, Who};
use std::alloc::Global;

/// A folder whose files are known by their names alone.
#[derive(Clone, Copy)]
pub enum Place {
    Agents,
    Sinks,
    Wahead,
}

impl Place {
    /// The folder's name.
    pub(crate) fn folder<'a>(self) -> &'a str
        ensures { result.now ≡ folder_of self }
    {
        match self {
            Place::Agents => "agents",
            Place::Sinks => "sinks",
            Place::Wahead => "wahead",
        }
    }
}

/// The place of the damage of the file of this name.
pub(crate) fn look_in<S: Site>(
    alloc: Global,
    site: &mut S,
    who: &Who,
    place: Place,
    name: &[u8],
) -> Result<Option<u64>, OutsideFault>
    requires job { who.now ≡ job }
    ensures told { IfOk result (λ found. FileSeen place name.now found (S.told site.old)
        (S.told site.new)) }
    ensures own { Adds (S.told site.old) (S.told site.new) (Every Quiet) }
    ensures cause { OutsideCause (S.fault_count site.old) (S.fault_count site.new) result }
{
    match place {
        Place::Agents => look_in_agents(alloc, site, name),
        Place::Sinks => look_in_sinks(alloc, site, who, name),
        Place::Wahead => look_in_wahead(alloc, site, who, name),
    }
}

fn look_in_agents<S: Site>(
    alloc: Global,
    site: &mut S,
    name: &[u8],
) -> Result<Option<u64>, OutsideFault>
    ensures told { IfOk result (λ found. AgentFileSeen name.now found (S.told site.old)
        (S.told site.new)) }
    ensures own { Adds (S.told site.old) (S.told site.new) (Every Quiet) }
    ensures cause { OutsideCause (S.fault_count site.old) (S.fault_count site.new) result }
{
    match without_end(name, b".check") {
        Some(source) => look_at_checkpoint(alloc, site, source),
        None => Ok(None),
    }
}

fn look_in_sinks<S: Site>(
    alloc: Global,
    site: &mut S,
    who: &Who,
    name: &[u8],
) -> Result<Option<u64>, OutsideFault>
    requires job { who.now ≡ job }
    ensures told { IfOk result (λ found. SinkFileSeen name.now found (S.told site.old)
        (S.told site.new)) }
    ensures own { Adds (S.told site.old) (S.told site.new) (Every Quiet) }
    ensures cause { OutsideCause (S.fault_count site.old) (S.fault_count site.new) result }
{
    match without_end(name, b".done") {
        Some(stem) => look_at_closed(alloc, site, who, stem),
        None => look_at_unclosed(alloc, site, who, name),
    }
}

fn look_at_closed<S: Site>(
    alloc: Global,
    site: &mut S,
    who: &Who,
    stem: &[u8],
) -> Result<Option<u64>, OutsideFault>
    requires job { who.now ≡ job }
    ensures told { IfOk result (λ found. SinkSeen (in_sinks stem.now (codes ".done")) found
        (S.told site.old) (S.told site.new)) }
    ensures own { Adds (S.told site.old) (S.told site.new) (Every Quiet) }
    ensures cause { OutsideCause (S.fault_count site.old) (S.fault_count site.new) result }
{
    match name_of(alloc, b"sinks/", stem, b".done") {
        Ok(name) => look_at_sink(alloc, site, who, name.as_str()),
        Err(NoMemory) => Err(OutsideFault::NoMemory),
    }
}

fn look_at_unclosed<S: Site>(
    alloc: Global,
    site: &mut S,
    who: &Who,
    name: &[u8],
) -> Result<Option<u64>, OutsideFault>
    requires job { who.now ≡ job }
    ensures told { IfOk result (λ found. UnclosedSeen name.now found (S.told site.old)
        (S.told site.new)) }
    ensures own { Adds (S.told site.old) (S.told site.new) (Every Quiet) }
    ensures cause { OutsideCause (S.fault_count site.old) (S.fault_count site.new) result }
{
    match without_end(name, b".chukwa") {
        Some(stem) => look_at_written(alloc, site, who, stem),
        None => look_at_mark_or_born(alloc, site, who, name),
    }
}

fn look_at_written<S: Site>(
    alloc: Global,
    site: &mut S,
    who: &Who,
    stem: &[u8],
) -> Result<Option<u64>, OutsideFault>
    requires job { who.now ≡ job }
    ensures told { IfOk result (λ found. OpenSeen (in_sinks stem.now (codes ".chukwa"))
        (in_sinks stem.now (codes ".mark")) found (S.told site.old) (S.told site.new)) }
    ensures own { Adds (S.told site.old) (S.told site.new) (Every Quiet) }
    ensures cause { OutsideCause (S.fault_count site.old) (S.fault_count site.new) result }
{
    match mark_name(alloc, b"sinks/", stem) {
        Ok(mark) => look_beside(alloc, site, who, stem, &mark),
        Err(NoMemory) => Err(OutsideFault::NoMemory),
    }
}

/// The same by the mark's name.
fn look_beside<S: Site>(
    alloc: Global,
    site: &mut S,
    who: &Who,
    stem: &[u8],
    mark: &Word,
) -> Result<Option<u64>, OutsideFault>
    requires job { who.now ≡ job }
    ensures told { IfOk result (λ found. OpenSeen (in_sinks stem.now (codes ".chukwa")) mark.now
        found (S.told site.old) (S.told site.new)) }
    ensures own { Adds (S.told site.old) (S.told site.new) (Every Quiet) }
    ensures cause { OutsideCause (S.fault_count site.old) (S.fault_count site.new) result }
{
    match name_of(alloc, b"sinks/", stem, b".chukwa") {
        Ok(name) => look_at_words(alloc, site, who, &name, mark),
        Err(NoMemory) => Err(OutsideFault::NoMemory),
    }
}

/// The same by both names.
fn look_at_words<S: Site>(
    alloc: Global,
    site: &mut S,
    who: &Who,
    name: &Word,
    mark: &Word,
) -> Result<Option<u64>, OutsideFault>
    requires job { who.now ≡ job }
    ensures told { IfOk result (λ found. OpenSeen name.now mark.now found (S.told site.old)
        (S.told site.new)) }
    ensures own { Adds (S.told site.old) (S.told site.new) (Every Quiet) }
    ensures cause { OutsideCause (S.fault_count site.old) (S.fault_count site.new) result }
{
    let sink = name.as_str();
    let beside = mark.as_str();
    look_at_open(alloc, site, who, sink, beside)
}

fn look_at_mark_or_born<S: Site>(
    alloc: Global,
    site: &mut S,
    who: &Who,
    name: &[u8],
) -> Result<Option<u64>, OutsideFault>
    requires job { who.now ≡ job }
    ensures told { IfOk result (λ found. MarkOrBornSeen name.now found (S.told site.old)
        (S.told site.new)) }
    ensures own { Adds (S.told site.old) (S.told site.new) (Every Quiet) }
    ensures cause { OutsideCause (S.fault_count site.old) (S.fault_count site.new) result }
{
    match without_end(name, b".mark") {
        Some(stem) => look_at_mark_of(alloc, site, who, b"sinks/", stem, b".chukwa", 96),
        None => look_at_born(alloc, site, who, name),
    }
}

/// The mark of a folder's file with this ending.
fn look_at_mark_of<S: Site>(
    alloc: Global,
    site: &mut S,
    who: &Who,
    folder: &[u8],
    front: &[u8],
    ending: &[u8],
    least: u64,
) -> Result<Option<u64>, OutsideFault>
    requires job { who.now ≡ job }
    ensures told { IfOk result (λ found. MarkSeen least
        ((folder.now ++ front.now) ++ codes ".mark") ((folder.now ++ front.now) ++ ending.now)
        found (S.told site.old) (S.told site.new)) }
    ensures own { Adds (S.told site.old) (S.told site.new) (Every Quiet) }
    ensures cause { OutsideCause (S.fault_count site.old) (S.fault_count site.new) result }
{
    match mark_name(alloc, folder, front) {
        Ok(mark) => look_with_mark(alloc, site, who, folder, front, ending, least, &mark),
        Err(NoMemory) => Err(OutsideFault::NoMemory),
    }
}

/// The same by the mark's name.
fn look_with_mark<S: Site>(
    alloc: Global,
    site: &mut S,
    who: &Who,
    folder: &[u8],
    front: &[u8],
    ending: &[u8],
    least: u64,
    mark: &Word,
) -> Result<Option<u64>, OutsideFault>
    requires job { who.now ≡ job }
    ensures told { IfOk result (λ found. MarkSeen least mark.now
        ((folder.now ++ front.now) ++ ending.now) found (S.told site.old) (S.told site.new)) }
    ensures own { Adds (S.told site.old) (S.told site.new) (Every Quiet) }
    ensures cause { OutsideCause (S.fault_count site.old) (S.fault_count site.new) result }
{
    match name_of(alloc, folder, front, ending) {
        Ok(of) => look_at_mark_by(alloc, site, who, mark, &of, least),
        Err(NoMemory) => Err(OutsideFault::NoMemory),
    }
}

/// The same by both names.
fn look_at_mark_by<S: Site>(
    alloc: Global,
    site: &mut S,
    who: &Who,
    mark: &Word,
    of: &Word,
    least: u64,
) -> Result<Option<u64>, OutsideFault>
    requires job { who.now ≡ job }
    ensures told { IfOk result (λ found. MarkSeen least mark.now of.now found (S.told site.old)
        (S.told site.new)) }
    ensures own { Adds (S.told site.old) (S.told site.new) (Every Quiet) }
    ensures cause { OutsideCause (S.fault_count site.old) (S.fault_count site.new) result }
{
    let name = mark.as_str();
    let whose = of.as_str();
    look_at_mark(alloc, site, who, name, whose, least)
}

fn look_at_born<S: Site>(
    alloc: Global,
    site: &mut S,
    who: &Who,
    name: &[u8],
) -> Result<Option<u64>, OutsideFault>
    requires job { who.now ≡ job }
    ensures told { IfOk result (λ found. BornSeen name.now found (S.told site.old)
        (S.told site.new)) }
    ensures own { Adds (S.told site.old) (S.told site.new) (Every Quiet) }
    ensures cause { OutsideCause (S.fault_count site.old) (S.fault_count site.new) result }
{
    match without_end(name, b".born") {
        Some(collector) => look_at_number_of(alloc, site, who, b"sinks/", collector, b".born"),
        None => Ok(None),
    }
}

/// A folder's file of a number from 1 on.
fn look_at_number_of<S: Site>(
    alloc: Global,
    site: &mut S,
    who: &Who,
    folder: &[u8],
    front: &[u8],
    ending: &[u8],
) -> Result<Option<u64>, OutsideFault>
    requires job { who.now ≡ job }
    ensures told { IfOk result (λ found. NumberSeen 1 ((folder.now ++ front.now) ++ ending.now)
        found (S.told site.old) (S.told site.new)) }
    ensures own { Adds (S.told site.old) (S.told site.new) (Every Quiet) }
    ensures cause { OutsideCause (S.fault_count site.old) (S.fault_count site.new) result }
{
    match name_of(alloc, folder, front, ending) {
        Ok(name) => look_at_number(alloc, site, who, name.as_str(), 1),
        Err(NoMemory) => Err(OutsideFault::NoMemory),
    }
}

fn look_in_wahead<S: Site>(
    alloc: Global,
    site: &mut S,
    who: &Who,
    name: &[u8],
) -> Result<Option<u64>, OutsideFault>
    requires job { who.now ≡ job }
    ensures told { IfOk result (λ found. WaheadFileSeen name.now found (S.told site.old)
        (S.told site.new)) }
    ensures own { Adds (S.told site.old) (S.told site.new) (Every Quiet) }
    ensures cause { OutsideCause (S.fault_count site.old) (S.fault_count site.new) result }
{
    match without_end(name, b".next") {
        Some(front) => look_at_number_of(alloc, site, who, b"wahead/", front, b".next"),
        None => look_at_buffer_mark(alloc, site, who, name),
    }
}

fn look_at_buffer_mark<S: Site>(
    alloc: Global,
    site: &mut S,
    who: &Who,
    name: &[u8],
) -> Result<Option<u64>, OutsideFault>
    requires job { who.now ≡ job }
    ensures told { IfOk result (λ found. BufferMarkSeen name.now found (S.told site.old)
        (S.told site.new)) }
    ensures own { Adds (S.told site.old) (S.told site.new) (Every Quiet) }
    ensures cause { OutsideCause (S.fault_count site.old) (S.fault_count site.new) result }
{
    match without_end(name, b".mark") {
        Some(front) => look_at_mark_of(alloc, site, who, b"wahead/", front, b".buf", 1),
        None => Ok(None),
    }
}
