//! What is told of a store.

ghost use Rattle.std.specs.Prelude.{◌≡◌, string_bytes, IfOk};
ghost use Rattle.chk_site.specs.Site.{OutsideCause};
ghost use Rattle.chk_ctl_status.specs.Stores.{line_counts, line_text, longest, store_counts};
ghost use Rattle.chk_ctl_status.specs.Stores.{store_text, text_of};
ghost use Rattle.chk_ctl_status.specs.Telling.{Tells};

use crate::free::{free_text, free_word};
use crate::store::StoreSeen;
use chk_bytes::NoMemory;
use chk_ctl_status_rows::{OpenSink, counts_line, sink_lines, stream_lines};
use chk_site::{Call, OutsideFault, Site, Who, reached};
use std::alloc::Global;

/// The line above the streams.
const STREAMS: &str = "       ARCHIVED         DEMUXED  STREAM\n";

/// The line above the sinks.
const SINKS: &str = "        WRITTEN       COMMITTED           QUIET  SINK\n";

/// The line above the counts.
const COUNTS: &str = "       UNCLOSED          CLOSED            HELD\n";

/// Prints the tables of a store, in one piece: of each stream how far it is archived and split; of
/// each sink under writing its length, what is committed, and how many seconds it is quiet; and
/// how many sinks are under writing, how many closed ones wait for the job, and how many chunks
/// are set aside; and how many bytes are free, `-` where that isn't known. It costs one call, and
/// holds the text.
pub fn tell_store<S: Site>(
    alloc: Global,
    site: &mut S,
    who: &Who,
    folder: &str,
    seen: &StoreSeen,
) -> Result<(), OutsideFault>
    ensures told { Tells who.now (store_text folder.now seen.now) result (S.told site.old)
        (S.told site.new) }
    ensures cause { OutsideCause (S.fault_count site.old) (S.fault_count site.new) result }
{
    match store_text(alloc, folder, seen) {
        Ok(text) => say_text(alloc, site, who, text.as_str()),
        Err(NoMemory) => Err(OutsideFault::NoMemory),
    }
}

/// Prints one line on a store, as Nagios reads it: `OK - ` or, where it has trouble, `WARNING - `,
/// and then `<folder>: unclosed <n> closed <n> held <n> quiet <s> free <bytes>`, with the most
/// seconds that a sink under writing is known to be quiet. It costs one call.
pub fn tell_line<S: Site>(
    alloc: Global,
    site: &mut S,
    who: &Who,
    folder: &str,
    seen: &StoreSeen,
) -> Result<(), OutsideFault>
    ensures told { Tells who.now (line_text folder.now seen.now) result (S.told site.old)
        (S.told site.new) }
    ensures cause { OutsideCause (S.fault_count site.old) (S.fault_count site.new) result }
{
    match line_text(alloc, folder, seen) {
        Ok(text) => say_text(alloc, site, who, text.as_str()),
        Err(NoMemory) => Err(OutsideFault::NoMemory),
    }
}

pub(crate) fn say_text<S: Site>(
    alloc: Global,
    site: &mut S,
    who: &Who,
    text: &str,
) -> Result<(), OutsideFault>
    ensures told { Tells who.now text.now result (S.told site.old) (S.told site.new) }
    ensures cause { OutsideCause (S.fault_count site.old) (S.fault_count site.new) result }
{
    say_bytes(alloc, site, who, text.as_bytes())
}

/// Prints a text in one piece. It costs one call.
pub fn say_bytes<S: Site>(
    alloc: Global,
    site: &mut S,
    who: &Who,
    text: &[u8],
) -> Result<(), OutsideFault>
    ensures told { Tells who.now text.now result (S.told site.old) (S.told site.new) }
    ensures cause { OutsideCause (S.fault_count site.old) (S.fault_count site.new) result }
{
    let given = site.say(alloc, who, text);
    reached(Call::Say, given)
}

/// The tables of a store, below a line with the name of its folder.
fn store_text(alloc: Global, folder: &str, seen: &StoreSeen) -> Result<String, NoMemory>
    ensures { IfOk result (λ text. string_bytes text ≡ store_text folder.now seen.now) }
{
    let streams = stream_lines(alloc, seen.waiting.book.ends.as_slice(), &seen.split)?;
    let sinks = sink_lines(alloc, seen.sinks.unclosed.as_slice())?;
    let counts = store_counts(alloc, seen)?;
    text_of(
        alloc,
        folder,
        streams.as_str(),
        sinks.as_str(),
        counts.as_str(),
    )
}

fn store_counts(alloc: Global, seen: &StoreSeen) -> Result<String, NoMemory>
    ensures { IfOk result (λ text. string_bytes text ≡ store_counts seen.now) }
{
    let unclosed = seen.sinks.unclosed.len() as u64;
    let held = seen.waiting.heads.len() as u64;
    let counts = counts_line(alloc, unclosed, seen.sinks.closed, held)?;
    let free = free_text(alloc, seen.free)?;
    let text = format!(in alloc; "{counts}{free}")?;
    Ok(text)
}

fn text_of(
    alloc: Global,
    folder: &str,
    streams: &str,
    sinks: &str,
    counts: &str,
) -> Result<String, NoMemory>
    ensures { IfOk result (λ text. string_bytes text
        ≡ text_of folder.now streams.now sinks.now counts.now) }
{
    let head = format!(in alloc; "store {folder}\n{STREAMS}{streams}")?;
    let text = format!(in alloc; "{head}{SINKS}{sinks}{COUNTS}{counts}")?;
    Ok(text)
}

fn line_text(alloc: Global, folder: &str, seen: &StoreSeen) -> Result<String, NoMemory>
    ensures { IfOk result (λ text. string_bytes text ≡ line_text folder.now seen.now) }
{
    let counts = line_counts(alloc, seen)?;
    let front = if seen.has_trouble() { "WARNING" } else { "OK" };
    let text = format!(in alloc; "{front} - {folder}: {counts}\n")?;
    Ok(text)
}

fn line_counts(alloc: Global, seen: &StoreSeen) -> Result<String, NoMemory>
    ensures { IfOk result (λ text. string_bytes text ≡ line_counts seen.now) }
{
    let unclosed = seen.sinks.unclosed.len();
    let closed = seen.sinks.closed;
    let held = seen.waiting.heads.len();
    let quiet = longest_quiet(seen.sinks.unclosed.as_slice());
    let front = format!(in alloc; "unclosed {unclosed} closed {closed}")?;
    let free = free_word(alloc, seen.free)?;
    let text = format!(in alloc; "{front} held {held} quiet {quiet} free {free}")?;
    Ok(text)
}

/// The most seconds that one of the sinks is known to be quiet; 0 where that isn't known of any.
fn longest_quiet(sinks: &[OpenSink]) -> u64
    ensures { result ≡ longest 0 sinks.now }
{
    let mut longest = 0;
    for sink in sinks {
        longest = longest.max(sink.quiet.unwrap_or(0));
    }
    longest
}
