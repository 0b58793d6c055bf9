//! Files of one number, and marks beside the files whose lengths they are.

ghost use Rattle.std.specs.Prelude.{◌≡◌, IfOk, IsTrue};
ghost use Rattle.chk_bytes.specs.Words.{is_word};
ghost use Rattle.chk_site.specs.History.{Every};
ghost use Rattle.chk_site.specs.Site.{Adds, OutsideCause};
ghost use Rattle.chk_world.specs.Sight.{job};
ghost use Rattle.chk_ctl_verify.specs.Calls.{Quiet};
ghost use Rattle.chk_ctl_verify.specs.Files.{below, held_as, number_from, past_end, wrong_number, PastSeen};
ghost use Rattle.chk_ctl_verify.specs.Files.{BelowSeen, MarkSeen, NumberRead, NumberSeen, OpenSeen};

use crate::calls::length_of;
use crate::chunks::look_at_sink;
use chk_bytes::take_u64;
use chk_record_index::read_file;
use chk_site::{OutsideFault, Site, Who};
use std::alloc::Global;

/// All numbers are below this one.
const LIMIT: u64 = 1 << 63;

/// What a file of one number holds.
#[derive(Clone, Copy)]
pub(crate) enum Held {
    /// There is no such file.
    Nothing,
    /// It holds something else.
    Wrong,
    Number(u64),
}

/// The number in a file, which has to be at least `least`.
fn read_number<S: Site>(
    alloc: Global,
    site: &mut S,
    who: &Who,
    name: &str,
    least: u64,
) -> Result<Held, OutsideFault>
    requires job { who.now ≡ job }
    ensures told { IfOk result (λ held. NumberRead least name.now held (S.told site.old)
        (S.told site.new)) }
    ensures own { Adds (S.told site.old) (S.told site.new) (Every Quiet) }
    ensures cause { OutsideCause (S.fault_count site.old) (S.fault_count site.new) result }
{
    match read_file(alloc, site, who, name) {
        Ok(Some(bytes)) => Ok(held_as(number_from(bytes.as_slice(), least))),
        Ok(None) => Ok(Held::Nothing),
        Err(fault) => Err(fault),
    }
}

/// What a file holds whose bytes are this number, or none.
fn held_as(number: Option<u64>) -> Held
    ensures { result ≡ held_as number }
{
    match number {
        Some(number) => Held::Number(number),
        None => Held::Wrong,
    }
}

/// The number that the bytes are, where they are 8 and it is at least `least` and below 2^63.
fn number_from(bytes: &[u8], least: u64) -> Option<u64>
    ensures { result ≡ number_from least bytes.now }
{
    if bytes.len() != 8 {
        return None;
    }
    let number = take_u64(bytes, 0)?;
    if number >= least && number < LIMIT {
        Some(number)
    } else {
        None
    }
}

/// 0 where the file is there, and isn't 8 bytes of a number from `least` on that is below 2^63.
pub(crate) fn look_at_number<S: Site>(
    alloc: Global,
    site: &mut S,
    who: &Who,
    name: &str,
    least: u64,
) -> Result<Option<u64>, OutsideFault>
    requires job { who.now ≡ job }
    ensures told { IfOk result (λ found. NumberSeen least name.now found (S.told site.old)
        (S.told site.new)) }
    ensures own { Adds (S.told site.old) (S.told site.new) (Every Quiet) }
    ensures cause { OutsideCause (S.fault_count site.old) (S.fault_count site.new) result }
{
    match read_number(alloc, site, who, name, least) {
        Ok(held) => Ok(wrong_number(held)),
        Err(fault) => Err(fault),
    }
}

fn wrong_number(held: Held) -> Option<u64>
    ensures { result ≡ wrong_number held }
{
    match held {
        Held::Wrong => Some(0),
        Held::Nothing => None,
        Held::Number(_) => None,
    }
}

/// The same of a mark, which besides may not say more than the length of its file `of`, where that
/// is there: the file may have been closed meanwhile.
pub(crate) fn look_at_mark<S: Site>(
    alloc: Global,
    site: &mut S,
    who: &Who,
    name: &str,
    of: &str,
    least: u64,
) -> Result<Option<u64>, OutsideFault>
    requires job { who.now ≡ job }
    ensures told { IfOk result (λ found. MarkSeen least name.now of.now found (S.told site.old)
        (S.told site.new)) }
    ensures own { Adds (S.told site.old) (S.told site.new) (Every Quiet) }
    ensures cause { OutsideCause (S.fault_count site.old) (S.fault_count site.new) result }
{
    match read_number(alloc, site, who, name, least) {
        Ok(Held::Number(number)) => is_past(alloc, site, who, of, number),
        Ok(Held::Nothing) => Ok(None),
        Ok(Held::Wrong) => Ok(Some(0)),
        Err(fault) => Err(fault),
    }
}

/// 0 where the file is there and shorter than this.
fn is_past<S: Site>(
    alloc: Global,
    site: &mut S,
    who: &Who,
    of: &str,
    number: u64,
) -> Result<Option<u64>, OutsideFault>
    requires job { who.now ≡ job }
    ensures told { IfOk result (λ found. PastSeen of.now number found (S.told site.old)
        (S.told site.new)) }
    ensures own { Adds (S.told site.old) (S.told site.new) (Every Quiet) }
    ensures cause { OutsideCause (S.fault_count site.old) (S.fault_count site.new) result }
{
    match length_of(alloc, site, who, of) {
        Ok(size) => Ok(past_end(size, number)),
        Err(fault) => Err(fault),
    }
}

fn past_end(size: Option<u64>, number: u64) -> Option<u64>
    ensures { result ≡ past_end size number }
{
    match size {
        Some(size) => { if size < number { Some(0) } else { None } }
        None => None,
    }
}

/// The place from which on a sink under writing isn't one of chunks, where that lies below the
/// length in its mark; without a mark nothing of it is committed. A mark that is none is told of
/// the mark alone.
pub(crate) fn look_at_open<S: Site>(
    alloc: Global,
    site: &mut S,
    who: &Who,
    name: &str,
    mark: &str,
) -> Result<Option<u64>, OutsideFault>
    requires job { who.now ≡ job }
    requires name { IsTrue (is_word name.now) }
    ensures told { IfOk result (λ found. OpenSeen name.now mark.now found (S.told site.old)
        (S.told site.new)) }
    ensures own { Adds (S.told site.old) (S.told site.new) (Every Quiet) }
    ensures cause { OutsideCause (S.fault_count site.old) (S.fault_count site.new) result }
{
    match read_number(alloc, site, who, mark, 96) {
        Ok(Held::Number(number)) => look_below(alloc, site, who, name, number),
        Ok(Held::Nothing) => Ok(None),
        Ok(Held::Wrong) => Ok(None),
        Err(fault) => Err(fault),
    }
}

/// The place of damage below this one.
fn look_below<S: Site>(
    alloc: Global,
    site: &mut S,
    who: &Who,
    name: &str,
    number: u64,
) -> Result<Option<u64>, OutsideFault>
    requires job { who.now ≡ job }
    requires name { IsTrue (is_word name.now) }
    ensures told { IfOk result (λ found. BelowSeen name.now number found (S.told site.old)
        (S.told site.new)) }
    ensures own { Adds (S.told site.old) (S.told site.new) (Every Quiet) }
    ensures cause { OutsideCause (S.fault_count site.old) (S.fault_count site.new) result }
{
    match look_at_sink(alloc, site, who, name) {
        Ok(found) => Ok(below(found, number)),
        Err(fault) => Err(fault),
    }
}

fn below(found: Option<u64>, number: u64) -> Option<u64>
    ensures { result ≡ below found number }
{
    match found {
        Some(at) => { if at < number { Some(at) } else { None } }
        None => None,
    }
}
