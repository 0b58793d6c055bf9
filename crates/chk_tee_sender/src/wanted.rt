//! Those of the chunks that a subscriber wants, and the message of them.

ghost use Rattle.std.specs.Prelude.{◌≡◌, ◌++◌, length, IsTrue, IfOk, OnOk};
ghost use Rattle.std.specs.List.{list_all};
ghost use Rattle.chk_http_grammar.specs.Messages.{is_ack};
ghost use Rattle.chk_tee.specs.Filters.{passing};
ghost use Rattle.chk_tee.specs.Lent.{IsWrittenOf};
ghost use Rattle.chk_tee.specs.Messages.{written_teeds};
ghost use Rattle.chk_tee_sender.specs.Offers.{IsSound, items_of, teeds_of, is_placed};

use crate::offers::{Offer, chunks, lines};
use chk_bytes::{Bytes, NoMemory};
use chk_chunk::PostRef;
use chk_http::LineList;
use chk_tee::{Filter, Teed, push_passing, put_tee_head};
use std::alloc::Global;

/// The message of those of the chunks that pass, `None` where none does. The chunks are gone through
/// twice, and each byte of those that pass is copied.
pub(crate) fn write_wanted(
    alloc: Global,
    filter: &Filter,
    offer: &Offer<'_>,
) -> Result<Option<Bytes>, NoMemory>
    requires { IsSound offer.now }
    ensures { IfOk result (IsWrittenOf (passing filter.now (items_of offer.now))) }
{
    let count = count_wanted(filter, offer);
    if count == 0 {
        return Ok(None);
    }
    let mut out = Bytes::new(alloc);
    put_tee_head(&mut out, count)?;
    push_wanted(alloc, &mut out, filter, chunks(offer), lines(offer))?;
    Ok(Some(out))
}

// How many of the chunks pass.
fn count_wanted(filter: &Filter, offer: &Offer<'_>) -> u32
    requires { IsSound offer.now }
    ensures { result ≡ length (passing filter.now (items_of offer.now)) }
{
    let mut post = chunks(offer);
    let mut lines = lines(offer);
    let mut count = 0;
    while let Some(chunk) = post.next() {
        let Some(_line) = lines.next() else {
            return count;
        };
        if filter.passes(&chunk) {
            count += 1;
        }
    }
    count
}

// Appends those of the chunks that pass, each behind its line's stem and number.
fn push_wanted(
    alloc: Global,
    out: &mut Bytes,
    filter: &Filter,
    mut post: PostRef<'_>,
    mut lines: LineList<'_>,
) -> Result<(), NoMemory>
    requires acks { IsTrue (list_all is_ack lines) }
    requires placed { IsTrue (list_all is_placed lines) }
    ensures { OnOk result (out.new ≡ out.old ++ written_teeds (passing filter.now (teeds_of post.entry.left lines.entry))) }
{
    let mut part = Bytes::new(alloc);
    while let Some(chunk) = post.next() {
        let Some((stem, offset)) = lines.next() else {
            return Ok(());
        };
        let item = Teed {
            stem,
            offset,
            chunk,
        };
        push_passing(out, &mut part, filter, &item)?;
    }
    Ok(())
}
