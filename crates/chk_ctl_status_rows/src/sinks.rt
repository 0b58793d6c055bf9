//! The sinks of a store, as one listing and reads behind it show them.

ghost use Rattle.std.specs.Prelude.{◌≡◌, IfOk, IfErr, Ok, Err, string_bytes};
ghost use Rattle.chk_site.specs.History.{Every};
ghost use Rattle.chk_site.specs.Once.{TakenOnce};
ghost use Rattle.chk_site.specs.Site.{bytes_given, Adds, OutsideCause};
ghost use Rattle.chk_world.specs.JobSteps.{IsOf};
ghost use Rattle.chk_world.specs.Names.{spell, MarkFile, SinkFile};
ghost use Rattle.chk_world.specs.Sight.{job};
ghost use Rattle.chk_ctl_status_rows.specs.Sinks.{pushed, read_once, with_items, AddsSink};
ghost use Rattle.chk_ctl_status_rows.specs.Sinks.{FindsSinks, Listed, LooksAround, SeesMark};
ghost use Rattle.chk_ctl_status_rows.specs.Sinks.{SeesNames, SeesSink, SeesSinks};

use crate::names::{closed_in, marked, open_stem, with_ending};
use chk_bytes::{Bytes, NoMemory, Stem, Word};
use chk_site::{Call, CallFault, OutsideFault, Site, Who, size_of, taken};
use std::alloc::Global;

/// The sinks of a store.
#[derive(Debug, Drop)]
pub struct Sinks {
    /// Those under writing, in byte order of their names.
    pub unclosed: Vec<OpenSink>,
    /// How many closed ones wait for the job.
    pub closed: u64,
}

/// A sink under writing.
#[derive(Clone, Copy, Debug)]
pub struct OpenSink {
    pub stem: Stem,
    /// Its length in bytes.
    pub written: u64,
    /// Up to which length it is committed; 0 where no mark says so.
    pub committed: u64,
    /// How many seconds ago it grew last, where that is known.
    pub quiet: Option<u64>,
}

/// The sinks of the store in the site's folder. Of each one under writing its length is asked for
/// and its mark is read; one that went meanwhile is left out. How long each is quiet isn't known.
///
/// It costs one listing, and two calls a sink under writing.
pub fn find_sinks<S: Site>(alloc: Global, site: &mut S, who: &Who) -> Result<Sinks, OutsideFault>
    requires job { who.now ≡ job }
    ensures told { FindsSinks who.now result (S.told site.old) (S.told site.new) }
    ensures own { Adds (S.told site.old) (S.told site.new) (Every (IsOf LooksAround)) }
    ensures cause { OutsideCause (S.fault_count site.old) (S.fault_count site.new) result }
{
    match list_sinks(alloc, site, who) {
        Ok(names) => see_names(alloc, site, who, names.as_slice()),
        Err(fault) => Err(fault),
    }
}

/// The names of the folder's files.
fn list_sinks<S: Site>(alloc: Global, site: &mut S, who: &Who) -> Result<Vec<Word>, OutsideFault>
    ensures ok { IfOk result (λ names. Listed who.now (Ok names.items) (S.told site.old)
        (S.told site.new)) }
    ensures err { IfErr result (λ fault. Listed who.now (Err fault) (S.told site.old)
        (S.told site.new)) }
    ensures cause { OutsideCause (S.fault_count site.old) (S.fault_count site.new) result }
{
    match site.list(alloc, who, "sinks") {
        Ok(names) => Ok(names),
        Err(CallFault::Failed) => Err(OutsideFault::Outside { call: Call::List }),
        Err(CallFault::NoMemory) => Err(OutsideFault::NoMemory),
        Err(_) => unreachable!(),
    }
}

/// The sinks that these files are.
fn see_names<S: Site>(
    alloc: Global,
    site: &mut S,
    who: &Who,
    names: &[Word],
) -> Result<Sinks, OutsideFault>
    ensures told { SeesNames who.now names.now result (S.told site.old) (S.told site.new) }
    ensures cause { OutsideCause (S.fault_count site.old) (S.fault_count site.new) result }
{
    let mut unclosed = Vec::new(alloc);
    match see_open(alloc, site, who, &mut unclosed, names) {
        Ok(()) => Ok(Sinks {
            unclosed,
            closed: closed_in(names) as u64,
        }),
        Err(fault) => Err(fault),
    }
}

/// Adds those under writing.
fn see_open<S: Site>(
    alloc: Global,
    site: &mut S,
    who: &Who,
    unclosed: &mut Vec<OpenSink>,
    names: &[Word],
) -> Result<(), OutsideFault>
    ensures told { SeesSinks who.now unclosed.old.items names.now
        (with_items unclosed.new.items result) (S.told site.old) (S.told site.new) }
    ensures cause { OutsideCause (S.fault_count site.old) (S.fault_count site.new) result }
{
    for name in names {
        add_sink(alloc, site, who, unclosed, name.as_str())?;
    }
    Ok(())
}

/// Adds the sink that a file of this name is, where it is one under writing.
fn add_sink<S: Site>(
    alloc: Global,
    site: &mut S,
    who: &Who,
    unclosed: &mut Vec<OpenSink>,
    name: &str,
) -> Result<(), OutsideFault>
    ensures told { AddsSink who.now unclosed.old.items name.now
        (with_items unclosed.new.items result) (S.told site.old) (S.told site.new) }
    ensures cause { OutsideCause (S.fault_count site.old) (S.fault_count site.new) result }
{
    match open_stem(name) {
        Some(stem) => match see_sink(alloc, site, who, stem) {
            Ok(Some(sink)) => push_sink(unclosed, sink),
            Ok(None) => Ok(()),
            Err(fault) => Err(fault),
        },
        None => Ok(()),
    }
}

fn push_sink(unclosed: &mut Vec<OpenSink>, sink: OpenSink) -> Result<(), OutsideFault>
    ensures { with_items unclosed.new.items result ≡ pushed unclosed.old.items sink result }
{
    match unclosed.push(sink) {
        Ok(()) => Ok(()),
        Err(_) => Err(OutsideFault::NoMemory),
    }
}

/// The sink of this stem, where it is still there.
fn see_sink<S: Site>(
    alloc: Global,
    site: &mut S,
    who: &Who,
    stem: Stem,
) -> Result<Option<OpenSink>, OutsideFault>
    ensures told { SeesSink who.now stem result (S.told site.old) (S.told site.new) }
    ensures cause { OutsideCause (S.fault_count site.old) (S.fault_count site.new) result }
{
    match sink_path(alloc, &stem) {
        Ok(path) => see_path(alloc, site, who, stem, path.as_str()),
        Err(NoMemory) => Err(OutsideFault::NoMemory),
    }
}

/// The same, by the name of its file.
fn see_path<S: Site>(
    alloc: Global,
    site: &mut S,
    who: &Who,
    stem: Stem,
    path: &str,
) -> Result<Option<OpenSink>, OutsideFault>
    requires path { path.now ≡ spell (SinkFile stem) }
    ensures told { SeesSink who.now stem result (S.told site.old) (S.told site.new) }
    ensures cause { OutsideCause (S.fault_count site.old) (S.fault_count site.new) result }
{
    match size_of(alloc, site, who, path) {
        Ok(Some(written)) => see_mark(alloc, site, who, stem, written),
        Ok(None) => Ok(None),
        Err(fault) => Err(fault),
    }
}

/// The sink of this stem and length, with what its mark says.
fn see_mark<S: Site>(
    alloc: Global,
    site: &mut S,
    who: &Who,
    stem: Stem,
    written: u64,
) -> Result<Option<OpenSink>, OutsideFault>
    ensures told { SeesMark who.now stem written result (S.told site.old) (S.told site.new) }
    ensures cause { OutsideCause (S.fault_count site.old) (S.fault_count site.new) result }
{
    match mark_path(alloc, &stem) {
        Ok(path) => read_mark(alloc, site, who, stem, written, path.as_str()),
        Err(NoMemory) => Err(OutsideFault::NoMemory),
    }
}

/// The same, by the name of the mark's file.
fn read_mark<S: Site>(
    alloc: Global,
    site: &mut S,
    who: &Who,
    stem: Stem,
    written: u64,
    path: &str,
) -> Result<Option<OpenSink>, OutsideFault>
    requires path { path.now ≡ spell (MarkFile stem) }
    ensures told { SeesMark who.now stem written result (S.told site.old) (S.told site.new) }
    ensures cause { OutsideCause (S.fault_count site.old) (S.fault_count site.new) result }
{
    match read_once(alloc, site, who, path) {
        Ok(mark) => Ok(Some(OpenSink {
            stem,
            written,
            committed: marked(&mark),
            quiet: None,
        })),
        Err(fault) => Err(fault),
    }
}

/// The first nine bytes of a file, where it is there.
fn read_once<S: Site>(
    alloc: Global,
    site: &mut S,
    who: &Who,
    name: &str,
) -> Result<Option<Bytes>, OutsideFault>
    ensures told { TakenOnce (read_once who.now name.now) bytes_given result (S.told site.old)
        (S.told site.new) }
    ensures cause { OutsideCause (S.fault_count site.old) (S.fault_count site.new) result }
{
    let given = site.read(alloc, who, name, 0, 9);
    taken(Call::Read, given)
}

fn sink_path(alloc: Global, stem: &Stem) -> Result<String, NoMemory>
    ensures { IfOk result (λ name. string_bytes name ≡ spell (SinkFile stem.now)) }
{
    with_ending(alloc, stem, ".chukwa")
}

fn mark_path(alloc: Global, stem: &Stem) -> Result<String, NoMemory>
    ensures { IfOk result (λ name. string_bytes name ≡ spell (MarkFile stem.now)) }
{
    with_ending(alloc, stem, ".mark")
}
