//! The rows of a metric.

ghost use Rattle.std.specs.Prelude.{◌≡◌, ◌++◌, OnOk};
ghost use Rattle.chk_bytes.specs.Stems.{stem_text};
ghost use Rattle.chk_book.specs.Views.{end_view};
ghost use Rattle.chk_ctl_metrics.specs.Metrics.{front_by, front_of, log_row, more_of, pair_row};
ghost use Rattle.chk_ctl_metrics.specs.Metrics.{sink_row, store_row, stream_row, tail_of};

use crate::escaping::put_label;
use chk_book::End;
use chk_bytes::{Bytes, NoMemory, Stem, put_decimal};
use chk_checkpoint::CheckLine;

/// Appends the row of a store.
pub(crate) fn put_store_row(
    out: &mut Bytes,
    metric: &str,
    store: &str,
    value: u64,
) -> Result<(), NoMemory>
    ensures { OnOk result (out.new ≡ out.old ++ store_row metric.now store.now value) }
{
    put_store(out, metric, store)?;
    put_tail(out, value)
}

/// Appends the row of a stream.
pub(crate) fn put_stream_row(
    out: &mut Bytes,
    metric: &str,
    store: &str,
    end: &End,
    value: u64,
) -> Result<(), NoMemory>
    ensures { OnOk result (out.new ≡ out.old ++ stream_row metric.now store.now (end_view end.now) value) }
{
    put_store(out, metric, store)?;
    put_more(out, "source", end.source.as_str())?;
    put_more(out, "type", end.kind.as_str())?;
    put_more(out, "name", end.name.as_str())?;
    put_tail(out, value)
}

/// Appends the row of a sink.
pub(crate) fn put_sink_row(
    out: &mut Bytes,
    metric: &str,
    store: &str,
    stem: &Stem,
    value: u64,
) -> Result<(), NoMemory>
    ensures { OnOk result (out.new ≡ out.old ++ sink_row metric.now store.now (stem_text stem.now) value) }
{
    put_store(out, metric, store)?;
    out.push_all(b",sink=\"")?;
    stem.write(out)?;
    out.push_all(b"\"")?;
    put_tail(out, value)
}

/// Appends the row of a stream of an agent.
pub(crate) fn put_log_row(
    out: &mut Bytes,
    metric: &str,
    folder: &str,
    source: &str,
    line: &CheckLine,
    value: u64,
) -> Result<(), NoMemory>
    ensures { OnOk result (out.new ≡ out.old
        ++ log_row metric.now folder.now source.now line.now.kind line.now.path value) }
{
    put_front(out, metric, "agent", folder)?;
    put_more(out, "source", source)?;
    put_more(out, "type", line.kind.as_str())?;
    put_more(out, "name", line.path.as_str())?;
    put_tail(out, value)
}

/// Appends a row of two labels, which have these names and values.
pub(crate) fn put_pair_row(
    out: &mut Bytes,
    metric: &str,
    label: &str,
    folder: &str,
    second: &str,
    name: &str,
    value: u64,
) -> Result<(), NoMemory>
    ensures { OnOk result (out.new ≡ out.old ++ pair_row metric.now label.now folder.now
        second.now name.now value) }
{
    put_front(out, metric, label, folder)?;
    put_more(out, second, name)?;
    put_tail(out, value)
}

fn put_store(out: &mut Bytes, metric: &str, store: &str) -> Result<(), NoMemory>
    ensures { OnOk result (out.new ≡ out.old ++ front_of metric.now store.now) }
{
    put_front(out, metric, "store", store)
}

fn put_front(out: &mut Bytes, metric: &str, name: &str, value: &str) -> Result<(), NoMemory>
    ensures { OnOk result (out.new ≡ out.old ++ front_by metric.now name.now value.now) }
{
    out.push_all(metric.as_bytes())?;
    out.push_all(b"{")?;
    put_label(out, name, value)
}

fn put_more(out: &mut Bytes, name: &str, value: &str) -> Result<(), NoMemory>
    ensures { OnOk result (out.new ≡ out.old ++ more_of name.now value.now) }
{
    out.push_all(b",")?;
    put_label(out, name, value)
}

fn put_tail(out: &mut Bytes, value: u64) -> Result<(), NoMemory>
    ensures { OnOk result (out.new ≡ out.old ++ tail_of value) }
{
    out.push_all(b"} ")?;
    put_decimal(out, value)?;
    out.push_all(b"\n")
}
