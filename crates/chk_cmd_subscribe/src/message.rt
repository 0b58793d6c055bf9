//! One message of a watcher: it is read to its end, and its chunks are printed.

ghost use Rattle.std.specs.Prelude.{◌≡◌, ◌≤◌, [], ◌∷◌, length, true, false, IsTrue, IfErr, OnOk};
ghost use Rattle.chk_site.specs.Site.{OutsideCause};
ghost use Rattle.chk_tee.specs.Lent.{lent_teed};
ghost use Rattle.chk_tee.specs.Messages.{is_teed, tee_limit};
ghost use Rattle.chk_cmd_subscribe.specs.Watching.{IsShort, IsReadOn, PrintsFresh, PrintsMessage, refused_more, printed_more};
ghost use Rattle.chk_cmd_output.specs.Printing.{PrintsInTurn};
ghost use Rattle.chk_cmd_subscribe.specs.Lines.{chunk_line};

use crate::Watch;
use crate::calls::next_piece;
use crate::lines::chunk_line;
use chk_bytes::Bytes;
use chk_cmd_output::print_line;
use chk_site::{OutsideFault, Site, Who};
use chk_tee::{TeeFault, TeeRef, Teed, read_tee};
use std::alloc::Global;

// The bytes end before the message does, and those that are there aren't wrong yet.
fn is_short(bytes: &[u8]) -> bool
    ensures short { result ≡ true → IsShort bytes.now }
    ensures within { result ≡ true → length bytes.now ≤ tee_limit }
    ensures other { result ≡ false → ¬ (IsShort bytes.now) }
{
    match read_tee(bytes) {
        Ok(_) => false,
        Err(TeeFault::Short { .. }) => true,
        Err(_) => false,
    }
}

/// All of the message that comes. It is read on while it is short, until a piece has no byte.
pub(crate) fn read_on<S: Site>(
    alloc: Global,
    site: &mut S,
    who: &Who,
    number: u64,
    begun: Bytes,
) -> Result<Bytes, OutsideFault>
    ensures script { IsReadOn who.now number begun result (S.told site.old) (S.told site.new) }
    ensures cause { OutsideCause (S.fault_count site.old) (S.fault_count site.new) result }
{
    let mut bytes = begun;
    while is_short(bytes.as_slice()) {
        match next_piece(alloc, site, who, number) {
            Ok(piece) => {
                if piece.len() == 0 {
                    return Ok(bytes);
                }
                if bytes.push_all(piece.as_slice()).is_err() {
                    return Err(OutsideFault::NoMemory);
                }
            }
            Err(fault) => return Err(fault),
        }
    }
    Ok(bytes)
}

/// Prints a line for each chunk of the message that wasn't seen before; bytes that aren't a message
/// count as refused.
pub(crate) fn print_message<S: Site>(
    alloc: Global,
    site: &mut S,
    who: &Who,
    watch: &mut Watch,
    bytes: &[u8],
) -> Result<(), OutsideFault>
    ensures script { PrintsMessage who.now bytes.now watch.old result watch.new (S.told site.old) (S.told site.new) }
    ensures cause { OutsideCause (S.fault_count site.old) (S.fault_count site.new) result }
{
    match read_tee(bytes) {
        Ok(tee) => print_chunks(alloc, site, who, watch, tee),
        Err(_) => refuse(watch),
    }
}

// Counts a message as refused.
fn refuse(watch: &mut Watch) -> Result<(), OutsideFault>
    ensures ok { OnOk result (watch.new ≡ refused_more watch.old) }
    ensures err { IfErr result (λ fault. (fault ≡ OutsideFault.NoMemory) × (watch.new ≡ watch.old)) }
{
    match watch.refused.checked_add(1) {
        Some(refused) => {
            watch.refused = refused;
            Ok(())
        }
        None => Err(OutsideFault::NoMemory),
    }
}

// Prints a line for each chunk that wasn't seen before.
fn print_chunks<S: Site>(
    alloc: Global,
    site: &mut S,
    who: &Who,
    watch: &mut Watch,
    mut tee: TeeRef<'_>,
) -> Result<(), OutsideFault>
    ensures script { PrintsFresh who.now tee.entry watch.old result watch.new (S.told site.old) (S.told site.new) }
    ensures cause { OutsideCause (S.fault_count site.old) (S.fault_count site.new) result }
{
    while let Some(teed) = tee.next() {
        match print_fresh(alloc, site, who, watch, &teed) {
            Ok(()) => {}
            Err(fault) => return Err(fault),
        }
    }
    Ok(())
}

// Prints the line of the chunk, where it wasn't seen before.
fn print_fresh<S: Site>(
    alloc: Global,
    site: &mut S,
    who: &Who,
    watch: &mut Watch,
    teed: &Teed<'_>,
) -> Result<(), OutsideFault>
    requires { IsTrue (is_teed (lent_teed teed.now)) }
    ensures script { PrintsFresh who.now (lent_teed teed.now ∷ []) watch.old result watch.new (S.told site.old) (S.told site.new) }
    ensures cause { OutsideCause (S.fault_count site.old) (S.fault_count site.new) result }
{
    match watch.sieve.fresh(teed.stem, teed.offset) {
        Ok(true) => print_chunk(alloc, site, who, watch, teed),
        Ok(false) => Ok(()),
        Err(_) => Err(OutsideFault::NoMemory),
    }
}

// Prints the line of the chunk and counts it. A count that is too large to be kept is want of memory.
fn print_chunk<S: Site>(
    alloc: Global,
    site: &mut S,
    who: &Who,
    watch: &mut Watch,
    teed: &Teed<'_>,
) -> Result<(), OutsideFault>
    requires { IsTrue (is_teed (lent_teed teed.now)) }
    ensures prints { PrintsInTurn who.now (chunk_line (lent_teed teed.now) ∷ []) result (S.told site.old) (S.told site.new) }
    ensures counts { OnOk result (watch.new ≡ printed_more watch.old) }
    ensures cause { OutsideCause (S.fault_count site.old) (S.fault_count site.new) result }
{
    let Some(printed) = watch.printed.checked_add(1) else {
        return Err(OutsideFault::NoMemory);
    };
    let Ok(line) = chunk_line(alloc, teed) else {
        return Err(OutsideFault::NoMemory);
    };
    match print_line(alloc, site, who, line.as_slice()) {
        Ok(()) => {
            watch.printed = printed;
            Ok(())
        }
        Err(fault) => Err(fault),
    }
}
