//! What is written of each record.

ghost use Rattle.std.specs.Prelude.{◌≡◌, ◌≤◌, ◌++◌, ◌∷◌, [], All, IfOk, OnOk, OnErr, flat_map, length};
ghost use Rattle.chk_archive_parts.specs.Cuts.{span_cuts, AreWithin};

use chk_archive_plan::Span;
use chk_bytes::NoMemory;
use chk_record_index::{HeadRef, Heads};
use std::alloc::Global;
use std::marker::Model;

/// The most bytes between the data of two records that follow each other: their keys and lengths, and little else.
const CLOSE: u64 = 512;

/// What is written of one record: all of its chunk but the first bytes.
#[derive(Clone, Copy, Debug, PartialEq, Eq)]
pub struct Cut {
    /// The place of its head.
    pub index: u32,
    /// How many bytes of its data are left out.
    pub skip: u32,
}

impl Cut {
    /// The cut at this place, where 32 bits hold the place and what is left out; else it counts as want of memory.
    pub(crate) fn new(index: usize, skip: u64) -> Result<Cut, NoMemory>
        ensures index { IfOk result (λ cut. cut.index ≡ index) }
        ensures skip { IfOk result (λ cut. cut.skip ≡ skip) }
    {
        let index = u32::try_from(index).map_err(|_| NoMemory)?;
        let skip = u32::try_from(skip).map_err(|_| NoMemory)?;
        Ok(Cut { index, skip })
    }
}

/// Cuts, in the order in which they are written. One has 8 bytes.
#[derive(Debug, Drop)]
pub struct Cuts {
    items: Vec<Cut>,
}

impl Model for Cuts {
    ghost use Rattle.std.specs.Prelude.{List};
    ghost use Rattle.chk_archive_parts.specs.declared.cuts.Cut.{Cut};

    ghost Value = { List Cut };

    ghost view = { λ c. c.items.items };
}

impl Cuts {
    /// No cuts. It takes no memory before the first one comes.
    pub fn new(alloc: Global) -> Cuts
        ensures { result ≡ [] }
    {
        Cuts {
            items: Vec::new(alloc),
        }
    }

    /// Puts a cut behind the others, or without memory nothing.
    pub(crate) fn push(&mut self, cut: Cut) -> Result<(), NoMemory>
        ensures ok { OnOk result (self.new ≡ self.old ++ cut ∷ []) }
        ensures err { OnErr result (self.new ≡ self.old) }
    {
        self.items.push(cut)?;
        Ok(())
    }

    /// The cuts, without a copy.
    pub fn as_slice(&self) -> &[Cut]
        ensures { result.now ≡ self.now }
    {
        &self.items
    }
}

/// What the passes over these spans take: span after span, and of each in the order of its pass. It costs the heads, and holds 8
/// bytes for each record that is taken.
pub fn cuts_of(alloc: Global, heads: &Heads, spans: &[Span]) -> Result<Cuts, NoMemory>
    requires { All (λ s. s.end ≤ length heads.now) spans.now }
    ensures each { IfOk result (λ cuts. cuts ≡ flat_map (span_cuts heads.now) spans.now) }
    ensures within { IfOk result (λ cuts. AreWithin (length heads.now) cuts) }
{
    let mut cuts = Cuts::new(alloc);
    for span in spans {
        push_span(&mut cuts, heads, span)?;
    }
    Ok(cuts)
}

/// Puts what the pass over a span takes behind the others.
fn push_span(cuts: &mut Cuts, heads: &Heads, span: &Span) -> Result<(), NoMemory>
    requires span { span.now.end ≤ length heads.now }
    requires within { AreWithin (length heads.now) cuts.old }
    ensures each { OnOk result (cuts.new ≡ cuts.old ++ span_cuts heads.now span.now) }
    ensures within { OnOk result (AreWithin (length heads.now) cuts.new) }
{
    let mut reached = span.from;
    for index in span.first..span.end {
        let head = heads.get(index);
        if head.begin <= reached && reached < head.key.seq {
            cuts.push(Cut::new(index, reached - head.begin)?)?;
            reached = head.key.seq;
        }
    }
    Ok(())
}

/// How many bytes of data the head's record has.
pub(crate) fn data_of(head: &HeadRef<'_>) -> u64 {
    head.key.seq.saturating_sub(head.begin)
}

/// The head's record begins closely behind the data of the other one's.
pub(crate) fn follows(last: &HeadRef<'_>, head: &HeadRef<'_>) -> bool {
    head.file == last.file
        && head
            .at
            .checked_sub(last.at)
            .is_some_and(|past| past.saturating_sub(data_of(last)) <= CLOSE)
}
