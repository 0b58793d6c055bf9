//! The lists of a book.

ghost use Rattle.std.specs.Prelude.{◌≡◌, ◌++◌, ◌∷◌, [], ℕ, ◌<◌, List, map, IsTrue, OnOk, OnErr, IfOk};
ghost use Rattle.chk_chunk.specs.Keys.{has_words, same_stream, stream_lt};
ghost use Rattle.chk_chunk.specs.Lent.{lent_chunk};
ghost use Rattle.chk_world.specs.Books.{End as BookEnd};
ghost use Rattle.chk_book.specs.Views.{end_view, lent_stream, last_stream};
ghost use Rattle.chk_book.specs.Segmenting.{end_of, raised_end, raised_by};
ghost use Rattle.chk_book.specs.Raising.{IsPlaceOf, ArePassed, AreUpTo, goes_by};
ghost use Rattle.chk_book.specs.Recent.{IsLast};

use chk_bytes::{NoMemory, Word, comes_before};
use chk_chunk::ChunkRef;
use std::alloc::Global;
use std::marker::Model;

/// A segment: its number and its length.
#[derive(Clone, Copy, Debug, PartialEq, Eq)]
pub struct Segment {
    pub number: u64,
    pub length: u64,
}

/// A stream in a book: its start, and the offset past its last byte.
#[derive(Debug, Drop)]
pub struct End {
    pub source: Word,
    pub kind: Word,
    pub name: Word,
    pub start: u64,
    pub end: u64,
}

impl End {
    /// The end that a chunk gives its stream.
    fn of(alloc: Global, chunk: &ChunkRef<'_>) -> Result<End, NoMemory>
        requires { IsTrue (has_words (lent_chunk chunk.now).key) }
        ensures { IfOk result (λ end. end_view end ≡ end_of (lent_chunk chunk.now)) }
    {
        Ok(End {
            source: Word::from_text(alloc, chunk.source)?,
            kind: Word::from_text(alloc, chunk.kind)?,
            name: Word::from_text(alloc, chunk.name)?,
            start: chunk.start,
            end: chunk.seq,
        })
    }

    fn copy(&self) -> Result<End, NoMemory>
        ensures { IfOk result (λ end. end_view end ≡ end_view self.now) }
    {
        Ok(End {
            source: self.source.copy()?,
            kind: self.kind.copy()?,
            name: self.name.copy()?,
            start: self.start,
            end: self.end,
        })
    }

    /// It is of the chunk's stream.
    fn is_of(&self, chunk: &ChunkRef<'_>) -> bool
        ensures { result ≡ same_stream (end_view self.now).stream (lent_chunk chunk.now).key.stream }
    {
        self.source.as_str() == chunk.source
            && self.kind.as_str() == chunk.kind
            && self.name.as_str() == chunk.name
    }

    /// Both are of one stream.
    fn is_with(&self, other: &End) -> bool
        ensures { result ≡ same_stream (end_view self.now).stream (end_view other.now).stream }
    {
        self.source.as_str() == other.source.as_str()
            && self.kind.as_str() == other.kind.as_str()
            && self.name.as_str() == other.name.as_str()
    }

    /// Its stream comes before the other one's, in byte order of source, type and name.
    pub fn is_before(&self, other: &End) -> bool
        ensures { result ≡ stream_lt (end_view self.now).stream (end_view other.now).stream }
    {
        comes_before(self.source.as_str(), other.source.as_str())
            || (self.source.as_str() == other.source.as_str()
                && (comes_before(self.kind.as_str(), other.kind.as_str())
                    || (self.kind.as_str() == other.kind.as_str()
                        && comes_before(self.name.as_str(), other.name.as_str()))))
    }

    /// Going through a book's ends to raise the other one, this one is passed.
    fn is_passed(&self, other: &End) -> bool
        ensures { result ≡ goes_by (end_view other.now) (end_view self.now) }
    {
        !self.is_with(other) && !other.is_before(self)
    }
}

/// Segments in the order of their numbers. It keeps its allocator.
#[derive(Debug, Drop)]
pub struct Segments {
    items: Vec<Segment>,
}

impl Model for Segments {
    ghost use Rattle.std.specs.Prelude.{List};
    ghost use Rattle.chk_book.specs.declared.lists.Segment.{Segment};

    ghost Value = { List Segment };

    ghost view = { λ s. s.items.items };
}

impl Segments {
    /// No segments. It takes no memory before the first one comes.
    pub fn new(alloc: Global) -> Segments
        ensures { result ≡ [] }
    {
        Segments {
            items: Vec::new(alloc),
        }
    }

    /// Puts a segment behind the others, or without memory nothing.
    pub fn push(&mut self, segment: Segment) -> Result<(), NoMemory>
        ensures ok { OnOk result (self.new ≡ self.old ++ segment ∷ []) }
        ensures err { OnErr result (self.new ≡ self.old) }
    {
        self.items.push(segment)?;
        Ok(())
    }

    /// A second list of the same segments.
    pub(crate) fn copy(&self) -> Result<Segments, NoMemory>
        ensures { IfOk result (λ copy. copy ≡ self.now) }
    {
        let items = self.items.clone()?;
        Ok(Segments { items })
    }

    /// The segments, without a copy.
    pub fn as_slice(&self) -> &[Segment]
        ensures { result.now ≡ self.now }
    {
        &self.items
    }
}

/// Streams with their ends; in a book they stand in byte order of source, type and name. It keeps its allocator.
#[derive(Debug, Drop)]
pub struct Ends {
    items: Vec<End>,
}

impl Model for Ends {
    ghost use Rattle.std.specs.Prelude.{List};
    ghost use Rattle.chk_book.specs.declared.lists.End.{End};

    ghost Value = { List End };

    ghost view = { λ e. e.items.items };
}

impl Ends {
    /// No streams. It takes no memory before the first one comes.
    pub fn new(alloc: Global) -> Ends
        ensures { result ≡ [] }
    {
        Ends {
            items: Vec::new(alloc),
        }
    }

    /// Puts a stream behind the others, or without memory nothing.
    pub fn push(&mut self, end: End) -> Result<(), NoMemory>
        ensures ok { OnOk result (self.new ≡ self.old ++ end ∷ []) }
        ensures err { OnErr result (self.new ≡ self.old) }
    {
        self.items.push(end)?;
        Ok(())
    }

    /// Raises the end of a stream to this one, or puts it in where the stream has none, or without memory nothing. It costs
    /// the number of streams.
    pub fn raise(&mut self, end: End) -> Result<(), NoMemory>
        ensures ok { OnOk result (map end_view self.new ≡ raised_end (end_view end) (map end_view self.old)) }
        ensures err { OnErr result (self.new ≡ self.old) }
    {
        let at = self.place_of(&end, 0);
        self.put_at(end, at)
    }

    /// Raises the end of a stream that stands in this place, or puts it in there.
    fn put_at(&mut self, end: End, at: usize) -> Result<(), NoMemory>
        requires place { IsPlaceOf (end_view end) (map end_view self.old) at }
        requires passed { ArePassed (end_view end) self.old at }
        ensures ok { OnOk result (map end_view self.new ≡ raised_end (end_view end) (map end_view self.old)) }
        ensures err { OnErr result (self.new ≡ self.old) }
        ensures last { OnOk result (AreUpTo self.new at) }
    {
        if at < self.items.len() && self.items[at].is_with(&end) {
            self.items[at].end = end.end;
            return Ok(());
        }
        self.items.insert(at, end)?;
        Ok(())
    }

    /// Where a stream stands in the order, or is to be put in. Those in front of `from` are passed by.
    fn place_of(&self, end: &End, from: usize) -> usize
        requires { ArePassed (end_view end.now) self.now from }
        ensures place { IsPlaceOf (end_view end.now) (map end_view self.now) result }
        ensures passed { ArePassed (end_view end.now) self.now result }
    {
        for at in from..self.items.len() {
            if !self.items[at].is_passed(end) {
                return at;
            }
        }
        self.items.len()
    }

    /// From where on the place of a stream is looked for: behind the stream at `near`, where that comes before it.
    fn begin_for(&self, end: &End, near: usize) -> usize
        requires { AreUpTo self.now near }
        ensures { ArePassed (end_view end.now) self.now result }
    {
        if near < self.items.len() && self.items[near].is_before(end) {
            near + 1
        } else {
            0
        }
    }

    /// These ends with those of the other list raised, in turn. It costs both lists; each of the others that doesn't come behind
    /// the one before it costs these once more.
    pub(crate) fn raised_by(&self, alloc: Global, others: &Ends) -> Result<Ends, NoMemory>
        ensures { IfOk result (λ ends. map end_view ends ≡ raised_by (map end_view others.now) (map end_view self.now)) }
    {
        let mut ends = self.copy(alloc)?;
        let mut at = 0;
        for other in others.as_slice() {
            let end = other.copy()?;
            at = ends.place_of(&end, ends.begin_for(&end, at));
            ends.put_at(end, at)?;
        }
        Ok(ends)
    }

    fn copy(&self, alloc: Global) -> Result<Ends, NoMemory>
        ensures { IfOk result (λ ends. map end_view ends ≡ map end_view self.now) }
    {
        let mut ends = Ends::new(alloc);
        for end in self.as_slice() {
            ends.push(end.copy()?)?;
        }
        Ok(ends)
    }

    /// Notes the end that a chunk gives its stream: behind the others, or in place of the last one where that is of this stream.
    pub(crate) fn note(&mut self, alloc: Global, chunk: &ChunkRef<'_>) -> Result<(), NoMemory>
        requires { IsTrue (has_words (lent_chunk chunk.now).key) }
        ensures ends { OnOk result ((es : List BookEnd) →
            raised_by (map end_view self.new) es
            ≡ raised_end (end_of (lent_chunk chunk.now)) (raised_by (map end_view self.old) es)) }
        ensures last { OnOk result (IsLast (lent_chunk chunk.now).key.stream self.new) }
        ensures err { OnErr result (self.new ≡ self.old) }
    {
        let count = self.items.len();
        if count > 0 && self.items[count - 1].is_of(chunk) {
            self.raise_last(chunk);
            return Ok(());
        }
        self.items.push(End::of(alloc, chunk)?)?;
        Ok(())
    }

    /// Raises the last end to the one that a chunk of its stream gives it.
    pub(crate) fn raise_last(&mut self, chunk: &ChunkRef<'_>)
        requires { IsLast (lent_chunk chunk.now).key.stream self.old }
        ensures ends { (es : List BookEnd) →
            raised_by (map end_view self.new) es
            ≡ raised_end (end_of (lent_chunk chunk.now)) (raised_by (map end_view self.old) es) }
        ensures last { IsLast (lent_chunk chunk.now).key.stream self.new }
    {
        let last = self.items.len() - 1;
        self.items[last].end = chunk.seq;
    }

    /// The last one.
    pub(crate) fn last(&self) -> Option<&End>
        ensures { lent_stream result ≡ last_stream (map end_view self.now) }
    {
        self.as_slice().last()
    }

    /// The streams, without a copy.
    pub fn as_slice(&self) -> &[End]
        ensures { result.now ≡ self.now }
    {
        &self.items
    }
}
