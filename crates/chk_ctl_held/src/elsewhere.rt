//! What waits in several stores, and which of them have what is missing in another one.

ghost use Rattle.std.specs.Prelude.{◌≡◌, ◌++◌, map, string_bytes, IfOk, IsTrue};
ghost use Rattle.std.specs.Prelude.{◌+◌, ◌<◌, drop, length, take};
ghost use Rattle.chk_bytes.specs.Words.{is_word};
ghost use Rattle.chk_site.specs.Site.{OutsideCause};
ghost use Rattle.chk_world.specs.ArchiveRuns.{is_one_line};
ghost use Rattle.chk_cmd_output.specs.Printing.{PrintsInTurn};
ghost use Rattle.chk_ctl_held.specs.Elsewhere.{all_lines, store_line, store_lines};
ghost use Rattle.chk_ctl_held.specs.Stores.{others_of, seen_of};

use crate::lines::add_groups;
use crate::others::Others;
use crate::printing::Lines;
use crate::stores::Store;
use chk_bytes::NoMemory;
use chk_site::{OutsideFault, Site, Who};
use std::alloc::Global;

/// Prints for each store a line `store <name>`, then the lines that `print_waiting` prints of it,
/// and behind each of them, for each other store in turn, what that one has of the missing bytes:
/// `found <source> <type> <name> from <offset> to <offset> archived in <name>`, where its archive
/// has some of them, and `found <source> <type> <name> from <offset> to <offset> waits in <name>`,
/// where chunks that it sets aside do. The offsets are those of the first one and past the last
/// one that is there; those that wait need not have each byte between. Nobody looks whether the
/// bytes are the same in both stores.
///
/// A store's lines cost one pass over its chunks, and for each of its streams of which chunks wait
/// a search by halves in each store, a step for each chunk that waits there of the stream, and a
/// call for each line. The lines of one store are held.
pub fn print_stores<S: Site>(
    alloc: Global,
    site: &mut S,
    who: &Who,
    stores: &[Store],
) -> Result<(), OutsideFault>
    ensures told { PrintsInTurn who.now (all_lines (map seen_of stores.now)) result
        (S.told site.old) (S.told site.new) }
    ensures cause { OutsideCause (S.fault_count site.old) (S.fault_count site.new) result }
{
    for at in 0..stores.len() {
        let others = others_at(stores, at);
        print_store(alloc, site, who, &stores[at], &others)?;
    }
    Ok(())
}

/// The stores but for the one at this place.
fn others_at<'a>(stores: &'a [Store], at: usize) -> Others<'a>
    requires { at < length stores.now }
    ensures { others_of result
        ≡ map seen_of (take at stores.now) ++ map seen_of (drop (at + 1) stores.now) }
{
    Others {
        before: &stores[..at],
        behind: &stores[at + 1..],
    }
}

/// Prints the lines of one store.
fn print_store<S: Site>(
    alloc: Global,
    site: &mut S,
    who: &Who,
    store: &Store,
    others: &Others<'_>,
) -> Result<(), OutsideFault>
    ensures told { PrintsInTurn who.now (store_lines (seen_of store.now) (others_of others.now))
        result (S.told site.old) (S.told site.new) }
    ensures cause { OutsideCause (S.fault_count site.old) (S.fault_count site.new) result }
{
    match store_lines(alloc, store, others) {
        Ok(lines) => lines.print(alloc, site, who),
        Err(NoMemory) => Err(OutsideFault::NoMemory),
    }
}

/// The lines of a store, among others.
fn store_lines(alloc: Global, store: &Store, others: &Others<'_>) -> Result<Lines, NoMemory>
    ensures { IfOk result (λ lines.
        lines ≡ store_lines (seen_of store.now) (others_of others.now)) }
{
    let mut lines = Lines::new(alloc);
    let line = store_line(alloc, store.name.as_str())?;
    lines.push(line)?;
    add_groups(alloc, &mut lines, &store.waiting, store.is_rising(), others)?;
    Ok(lines)
}

/// The line of a store.
fn store_line(alloc: Global, name: &str) -> Result<String, NoMemory>
    requires { IsTrue (is_word name.now) }
    ensures line { IfOk result (λ line. string_bytes line ≡ store_line name.now) }
    ensures one { IfOk result (λ line. IsTrue (is_one_line (string_bytes line))) }
{
    let text = format!(in alloc; "store {name}\n")?;
    Ok(text)
}
