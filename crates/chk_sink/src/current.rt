//! The sink that is written to.

ghost use Rattle.std.specs.Prelude.{◌≡◌, ◌≤◌, ◌+◌, ◌^◌, length, IfOk, [], ◌∷◌, string_bytes};
ghost use Rattle.chk_bytes.specs.Stems.{stem_text};
ghost use Rattle.chk_seqfile.specs.Headers.{header};
ghost use Rattle.chk_world.specs.Names.{SinkFile, spell};
ghost use Rattle.chk_world.specs.Collectors.{marker};
ghost use Rattle.chk_seqfile.specs.Entries.{piece_at};
ghost use Rattle.chk_site.specs.declared.acts.Call.TheVariants.{Append};
ghost use Rattle.chk_site.specs.Site.{asked, OutsideCause};
ghost use Rattle.chk_sink.specs.Calls.{MadeOnce};
ghost use Rattle.chk_sink.specs.SinkFields.{first_of, longer};
ghost use Rattle.chk_sink.specs.Closing.{current_all_marked};
ghost use Rattle.chk_sink.specs.States.{seen_first, has_passed};
ghost use Rattle.chk_sink.specs.Ticking.{seen_by};

use crate::names;
use chk_bytes::{Bytes, NoMemory, Stem};
use chk_seqfile::{SeqWriter, header};
use chk_site::{Call, OutsideFault, Site, Who, done};
use std::alloc::Global;

/// The sink that is written to. Sizes and places are in bytes.
#[derive(Clone, Copy)]
pub(crate) struct Current {
    pub stem: Stem,
    /// The marker of its sync entries.
    pub marker: [u8; 16],
    pub size: u64,
    /// Where its header or its last sync entry ends.
    pub sync_end: u64,
    /// The number in its mark, 0 where it has none.
    pub marked: u64,
    /// The moment of the first tick that saw it.
    pub seen: Option<u64>,
}

impl Current {
    /// The sink of this stem, whose text is given, with its header alone.
    pub fn first(stem: Stem, text: &str) -> Current
        requires { text.now ≡ stem_text stem }
        ensures { result ≡ first_of stem }
    {
        let writer = SeqWriter::after_header(text);
        let marker = writer.marker;
        Current {
            stem,
            marker,
            size: writer.place,
            sync_end: writer.last_sync,
            marked: 0,
            seen: None,
        }
    }

    /// The sink, with a mark that says all of it.
    pub fn all_marked(&self) -> Current
        ensures { result ≡ current_all_marked self.now }
    {
        Current {
            stem: self.stem,
            marker: self.marker,
            size: self.size,
            sync_end: self.sync_end,
            marked: self.size,
            seen: self.seen,
        }
    }

    /// The piece to append for a record, and the sink with it.
    pub fn entry(
        &self,
        alloc: Global,
        key: &[u8],
        value: &[u8],
    ) -> Result<(Bytes, Current), NoMemory>
        requires ordered { self.now.sync_end ≤ self.now.size }
        requires room { self.now.size ≤ 2 ^ 62 }
        requires small { length key.now + length value.now ≤ 16777216 }
        ensures piece { IfOk result (λ made.
            made.0 ≡ piece_at self.now.marker self.now.size self.now.sync_end key.now value.now) }
        ensures longer { IfOk result (λ made. made.1 ≡ longer self.now (length made.0)) }
        ensures ordered { IfOk result (λ made. made.1.sync_end ≤ made.1.size) }
    {
        let mut writer = SeqWriter {
            place: self.size,
            last_sync: self.sync_end,
            marker: self.marker,
        };
        let piece = writer.entry(alloc, key, value)?;
        let longer = Current {
            stem: self.stem,
            marker: self.marker,
            size: writer.place,
            sync_end: writer.last_sync,
            marked: self.marked,
            seen: self.seen,
        };
        Ok((piece, longer))
    }

    /// The moment of the first tick that saw it, where one sees it at this moment.
    pub fn first_seen(&self, now: u64) -> u64
        ensures { result ≡ seen_first self.now.seen now }
    {
        self.seen.unwrap_or(now)
    }

    /// The sink as a tick at this moment leaves it.
    pub fn seen_at(&self, now: u64) -> Current
        ensures { result ≡ seen_by now self.now }
    {
        Current {
            stem: self.stem,
            marker: self.marker,
            size: self.size,
            sync_end: self.sync_end,
            marked: self.marked,
            seen: Some(self.first_seen(now)),
        }
    }
}

/// So many milliseconds have passed since the first moment; none have where the clock fell.
pub(crate) fn has_passed(first: u64, now: u64, rotate: u64) -> bool
    ensures { result ≡ has_passed first now rotate }
{
    match now.checked_sub(first) {
        Some(passed) => passed >= rotate,
        None => false,
    }
}

/// What the sink of this stem begins with: its name, its header, the piece of its first record, and the sink with both.
pub(crate) fn first_pieces(
    alloc: Global,
    stem: Stem,
    key: &[u8],
    value: &[u8],
) -> Result<(String, Bytes, Bytes, Current), NoMemory>
    requires { length key.now + length value.now ≤ 16777216 }
    ensures name { IfOk result (λ made. string_bytes made.0 ≡ spell (SinkFile stem)) }
    ensures head { IfOk result (λ made. made.1 ≡ header (marker stem)) }
    ensures piece { IfOk result (λ made. made.2 ≡ piece_at (marker stem) 96 96 key.now value.now) }
    ensures longer { IfOk result (λ made. made.3 ≡ longer (first_of stem) (length made.2)) }
{
    let name = names::sink(alloc, &stem)?;
    let text = names::text(alloc, &stem)?;
    let head = header(alloc, text.as_str())?;
    let first = Current::first(stem, text.as_str());
    let (piece, longer) = first.entry(alloc, key, value)?;
    Ok((name, head, piece, longer))
}

/// Appends a piece to a sink.
pub(crate) fn append_to<S: Site>(
    alloc: Global,
    site: &mut S,
    who: &Who,
    sink: &str,
    piece: &[u8],
) -> Result<(), OutsideFault>
    ensures told { MadeOnce (asked who.now Append (sink.now ∷ piece.now ∷ []) 0 0) result
        (S.told site.old) (S.told site.new) }
    ensures cause { OutsideCause (S.fault_count site.old) (S.fault_count site.new) result }
{
    let appended = site.append(alloc, who, sink, piece);
    done(Call::Append, appended)
}
