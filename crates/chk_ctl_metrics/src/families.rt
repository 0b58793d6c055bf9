//! The families of metrics of stores.

ghost use Rattle.std.specs.Prelude.{◌≡◌, ◌++◌, flat_map, string_bytes, OnOk};
ghost use Rattle.chk_ctl_metrics.specs.Families.{absent_row, archived_row, committed_row, demuxed_row};
ghost use Rattle.chk_ctl_metrics.specs.Families.{family_text, found_text, free_of, head_text, help_of};
ghost use Rattle.chk_ctl_metrics.specs.Families.{name_of, stores_text};
ghost use Rattle.chk_ctl_metrics.specs.Families.{open_families, quiet_of, quiet_row, rows_of, sink_families, stream_families, type_text, waiting_families, written_row};
ghost use Rattle.chk_ctl_metrics.specs.Metrics.{store_row};
ghost use Rattle.chk_bytes.specs.Stems.{stem_text};

use crate::rows::{put_sink_row, put_store_row, put_stream_row};
use chk_bytes::{Bytes, NoMemory};
use chk_ctl_status::{Lock, StoreSeen};
use chk_ctl_status_rows::{OpenSink, split_to};

/// A store that was seen, and the name of its folder.
#[derive(Debug, Drop)]
pub struct NamedStore {
    pub folder: String,
    pub seen: StoreSeen,
    /// The folder's locks.
    pub locks: Vec<Lock>,
}

/// What the rows of a family tell.
#[derive(Clone, Copy, Debug, PartialEq, Eq)]
pub(crate) enum Family {
    Found,
    Archived,
    Demuxed,
    Written,
    Committed,
    Quiet,
    Unclosed,
    Closed,
    Held,
    Free,
}

impl Family {
    /// The name of its metric.
    fn name(self) -> &'static str
        ensures { result.now ≡ name_of self }
    {
        match self {
            Family::Found => "chukwa_store_found",
            Family::Archived => "chukwa_archived_bytes",
            Family::Demuxed => "chukwa_demuxed_bytes",
            Family::Written => "chukwa_sink_written_bytes",
            Family::Committed => "chukwa_sink_committed_bytes",
            Family::Quiet => "chukwa_sink_quiet_seconds",
            Family::Unclosed => "chukwa_sinks_unclosed",
            Family::Closed => "chukwa_sinks_closed",
            Family::Held => "chukwa_chunks_held",
            Family::Free => "chukwa_free_bytes",
        }
    }

    /// What its metric is.
    fn help(self) -> &'static str
        ensures { result.now ≡ help_of self }
    {
        match self {
            Family::Found => "1 where the folder is a store, 0 where it is none.",
            Family::Archived => "Offset up to which the stream is archived.",
            Family::Demuxed => "Offset up to which the stream is split into records.",
            Family::Written => "Length of a sink under writing.",
            Family::Committed => "Length up to which a sink under writing is committed.",
            Family::Quiet => "Seconds since a sink under writing grew.",
            Family::Unclosed => "Sinks under writing.",
            Family::Closed => "Closed sinks that wait for the job.",
            Family::Held => "Chunks that are set aside.",
            Family::Free => "Bytes that are free where the store is.",
        }
    }
}

/// Appends ten families, each with its rows of all stores. Of a folder that is no store it has the
/// row that says so alone.
pub(crate) fn put_stores(
    out: &mut Bytes,
    stores: &[NamedStore],
    absent: &[&str],
) -> Result<(), NoMemory>
    ensures { OnOk result (out.new ≡ out.old ++ stores_text stores.now absent.now) }
{
    put_found(out, stores, absent)?;
    put_stream_families(out, stores)?;
    put_sink_families(out, stores)?;
    put_open_families(out, stores)?;
    put_waiting_families(out, stores)
}

/// Appends which of the folders are stores.
fn put_found(out: &mut Bytes, stores: &[NamedStore], absent: &[&str]) -> Result<(), NoMemory>
    ensures { OnOk result (out.new ≡ out.old ++ found_text stores.now absent.now) }
{
    put_family(out, Family::Found, stores)?;
    put_absent(out, absent)
}

fn put_absent(out: &mut Bytes, absent: &[&str]) -> Result<(), NoMemory>
    ensures { OnOk result (out.new ≡ out.old ++ flat_map (λ w. absent_row w.now) absent.now) }
{
    for folder in absent {
        put_store_row(out, Family::Found.name(), folder, 0)?;
    }
    Ok(())
}

fn put_stream_families(out: &mut Bytes, stores: &[NamedStore]) -> Result<(), NoMemory>
    ensures { OnOk result (out.new ≡ out.old ++ flat_map (family_text stores.now) stream_families) }
{
    put_family(out, Family::Archived, stores)?;
    put_family(out, Family::Demuxed, stores)
}

fn put_sink_families(out: &mut Bytes, stores: &[NamedStore]) -> Result<(), NoMemory>
    ensures { OnOk result (out.new ≡ out.old ++ flat_map (family_text stores.now) sink_families) }
{
    put_family(out, Family::Written, stores)?;
    put_family(out, Family::Committed, stores)
}

fn put_open_families(out: &mut Bytes, stores: &[NamedStore]) -> Result<(), NoMemory>
    ensures { OnOk result (out.new ≡ out.old ++ flat_map (family_text stores.now) open_families) }
{
    put_family(out, Family::Quiet, stores)?;
    put_family(out, Family::Unclosed, stores)
}

fn put_waiting_families(out: &mut Bytes, stores: &[NamedStore]) -> Result<(), NoMemory>
    ensures { OnOk result (out.new ≡ out.old ++ flat_map (family_text stores.now) waiting_families) }
{
    put_family(out, Family::Closed, stores)?;
    put_family(out, Family::Held, stores)?;
    put_family(out, Family::Free, stores)
}

/// Appends a family with its rows of all stores.
#[tactic(auto, unfolding(crate::specs::Families::family_text))]
fn put_family(out: &mut Bytes, family: Family, stores: &[NamedStore]) -> Result<(), NoMemory>
    ensures { OnOk result (out.new ≡ out.old ++ family_text stores.now family) }
{
    put_head(out, family.name(), family.help())?;
    for store in stores {
        put_rows(out, family, store)?;
    }
    Ok(())
}

/// Appends what stands before the rows of a metric.
pub(crate) fn put_head(out: &mut Bytes, name: &str, help: &str) -> Result<(), NoMemory>
    ensures { OnOk result (out.new ≡ out.old ++ head_text name.now help.now) }
{
    put_type(out, name)?;
    out.push_all(name.as_bytes())?;
    out.push_all(b" ")?;
    out.push_all(help.as_bytes())?;
    out.push_all(b"\n")
}

fn put_type(out: &mut Bytes, name: &str) -> Result<(), NoMemory>
    ensures { OnOk result (out.new ≡ out.old ++ type_text name.now) }
{
    out.push_all(b"# TYPE ")?;
    out.push_all(name.as_bytes())?;
    out.push_all(b" gauge\n# HELP ")
}

/// Appends the rows that the family has of the store.
fn put_rows(out: &mut Bytes, family: Family, store: &NamedStore) -> Result<(), NoMemory>
    ensures { OnOk result (out.new ≡ out.old ++ rows_of family store.now) }
{
    match family {
        Family::Found => put_count(out, family, store, 1),
        Family::Archived => put_archived(out, store),
        Family::Demuxed => put_demuxed(out, store),
        Family::Written => put_written(out, store),
        Family::Committed => put_committed(out, store),
        Family::Quiet => put_quiet(out, store),
        Family::Unclosed => put_count(out, family, store, store.seen.sinks.unclosed.len() as u64),
        Family::Closed => put_count(out, family, store, store.seen.sinks.closed),
        Family::Held => put_count(out, family, store, store.seen.waiting.heads.len() as u64),
        Family::Free => put_free(out, store),
    }
}

fn put_count(
    out: &mut Bytes,
    family: Family,
    store: &NamedStore,
    count: u64,
) -> Result<(), NoMemory>
    ensures { OnOk result (out.new ≡ out.old ++ store_row (name_of family) (string_bytes store.now.folder) count) }
{
    put_store_row(out, family.name(), store.folder.as_str(), count)
}

fn put_free(out: &mut Bytes, store: &NamedStore) -> Result<(), NoMemory>
    ensures { OnOk result (out.new ≡ out.old
        ++ free_of (string_bytes store.now.folder) store.now.seen.free) }
{
    match store.seen.free {
        Some(bytes) => put_count(out, Family::Free, store, bytes),
        None => Ok(()),
    }
}

fn put_archived(out: &mut Bytes, store: &NamedStore) -> Result<(), NoMemory>
    ensures { OnOk result (out.new ≡ out.old
        ++ flat_map (archived_row store.now) store.now.seen.waiting.book.ends) }
{
    for end in store.seen.waiting.book.ends.as_slice() {
        let name = Family::Archived.name();
        put_stream_row(out, name, store.folder.as_str(), end, end.end)?;
    }
    Ok(())
}

fn put_demuxed(out: &mut Bytes, store: &NamedStore) -> Result<(), NoMemory>
    ensures { OnOk result (out.new ≡ out.old
        ++ flat_map (demuxed_row store.now) store.now.seen.waiting.book.ends) }
{
    for end in store.seen.waiting.book.ends.as_slice() {
        let name = Family::Demuxed.name();
        let split = split_to(&store.seen.split, end);
        put_stream_row(out, name, store.folder.as_str(), end, split)?;
    }
    Ok(())
}

fn put_written(out: &mut Bytes, store: &NamedStore) -> Result<(), NoMemory>
    ensures { OnOk result (out.new ≡ out.old
        ++ flat_map (written_row store.now) store.now.seen.sinks.unclosed.items) }
{
    for sink in &store.seen.sinks.unclosed {
        let name = Family::Written.name();
        put_sink_row(out, name, store.folder.as_str(), &sink.stem, sink.written)?;
    }
    Ok(())
}

fn put_committed(out: &mut Bytes, store: &NamedStore) -> Result<(), NoMemory>
    ensures { OnOk result (out.new ≡ out.old
        ++ flat_map (committed_row store.now) store.now.seen.sinks.unclosed.items) }
{
    for sink in &store.seen.sinks.unclosed {
        let name = Family::Committed.name();
        put_sink_row(out, name, store.folder.as_str(), &sink.stem, sink.committed)?;
    }
    Ok(())
}

fn put_quiet(out: &mut Bytes, store: &NamedStore) -> Result<(), NoMemory>
    ensures { OnOk result (out.new ≡ out.old
        ++ flat_map (quiet_row store.now) store.now.seen.sinks.unclosed.items) }
{
    for sink in &store.seen.sinks.unclosed {
        put_quiet_row(out, store.folder.as_str(), sink)?;
    }
    Ok(())
}

fn put_quiet_row(out: &mut Bytes, store: &str, sink: &OpenSink) -> Result<(), NoMemory>
    ensures { OnOk result (out.new ≡ out.old
        ++ quiet_of store.now (stem_text sink.now.stem) sink.now.quiet) }
{
    match sink.quiet {
        Some(seconds) => { put_sink_row(out, Family::Quiet.name(), store, &sink.stem, seconds) }
        None => Ok(()),
    }
}
