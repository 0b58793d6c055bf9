//! The adaptors, and how one is found.

ghost use Rattle.std.specs.Prelude.{◌≡◌, ◌≤◌, ◌<◌, [], Some, None, length, position, slice_get};
ghost use Rattle.std.specs.Prelude.{if◌then◌else◌};
ghost use Rattle.chk_world.specs.Checkpoints.{most_lines};
ghost use Rattle.chk_agent_adaptor.specs.Adaptors.{Adaptor as Reading, is_past};
ghost use Rattle.chk_agent_table.specs.Adaptors.{is_of, is_named};

use crate::hashing::Hashing;
use crate::keys::{is_past, stream_key};
use crate::names::Names;
use crate::streams::Streams;
use chk_agent_adaptor::Adaptor;
use chk_bytes::Word;
use indexmap::IndexMap;
use std::alloc::Global;
use std::marker::Model;

/// At most 10,000 adaptors in order of adding, which are numbered from 0. A stream and the name of
/// a live one are found by their hash, in a time that doesn't grow with the number of adaptors.
///
/// A look-up among words of one hash goes through them, as one through all adaptors would. Whoever
/// chooses the words of streams or names can make many of one hash where it is `Hashing::Fixed`.
///
/// Beside each adaptor it keeps a copy of its type, its path and its name, and 40 bytes.
#[derive(Drop)]
pub struct Adaptors {
    pub(crate) alloc: Global,
    pub(crate) streams: Streams,
    pub(crate) names: Names,
}

impl Model for Adaptors {
    ghost use Rattle.chk_agent_table.specs.Adaptors.{Held};

    ghost Value = { Held };

    ghost use Rattle.chk_agent_table.specs.Fields.{held_view, IsSoundInside};

    ghost view = { held_view };

    ghost invariant = { IsSoundInside };
}

impl Adaptors {
    /// No adaptors. It takes no memory before the first one comes.
    pub fn new(alloc: Global, hashing: Hashing) -> Adaptors
        ensures { result.items ≡ [] }
    {
        Adaptors {
            alloc,
            streams: IndexMap::with_hasher(alloc, hashing),
            names: IndexMap::with_hasher(alloc, hashing),
        }
    }

    /// How many there are, past ones included.
    pub fn len(&self) -> u32
        ensures len { result ≡ length self.now.items }
        ensures few { result ≤ most_lines }
    {
        self.streams.len() as u32
    }

    /// The adaptor of this number.
    pub fn at(&self, number: u32) -> &Adaptor
        requires { number < length self.now.items }
        ensures { slice_get self.now.items number ≡ Some result.now }
    {
        &self.streams[number as usize]
    }

    /// All of them, in order of adding.
    pub fn as_slice(&self) -> &[Adaptor]
        ensures { result.now ≡ self.now.items }
    {
        self.streams.values().as_slice()
    }

    /// The number of the adaptor of this type and path, a past one too. Where there is no memory for
    /// the stream's key, it goes through all of them.
    pub fn find(&self, kind: &Word, path: &Word) -> Option<u32>
        ensures { result ≡ position (is_of kind.now path.now) self.now.items }
    {
        match self.place_of(kind, path) {
            Some(place) => Some(place as u32),
            None => None,
        }
    }

    // The place of the adaptor of this type and path.
    fn place_of(&self, kind: &Word, path: &Word) -> Option<usize>
        ensures place { result ≡ position (is_of kind.now path.now) self.now.items }
        ensures few { length self.now.items ≤ most_lines }
    {
        let _sound = kind.as_str();
        match stream_key(self.alloc, kind, path) {
            Ok(key) => self.streams.get_index_of(key.as_str()),
            Err(_) => place_among(self.as_slice(), kind, path),
        }
    }

    /// The number of the adaptor of this name that isn't past.
    pub fn named(&self, name: &Word) -> Option<u32>
        ensures { result ≡ position (is_named name.now) self.now.items }
    {
        match self.names.get(name.as_str()) {
            Some(number) => self.if_live(*number),
            None => None,
        }
    }

    // The number, where its adaptor isn't past.
    fn if_live(&self, number: u32) -> Option<u32>
        requires { number < length self.now.items }
        ensures { (a : Reading) → slice_get self.now.items number ≡ Some a
            → result ≡ (if is_past a.phase then None else Some number) }
    {
        if is_past(self.at(number).phase()) {
            None
        } else {
            Some(number)
        }
    }
}

// The place of the first of these that is of this type and path.
fn place_among(adaptors: &[Adaptor], kind: &Word, path: &Word) -> Option<usize>
    ensures { result ≡ position (is_of kind.now path.now) adaptors.now }
{
    adaptors
        .iter()
        .position(|adaptor| is_of(adaptor, kind, path))
}

// Whether the adaptor is of this type and path.
fn is_of(adaptor: &Adaptor, kind: &Word, path: &Word) -> bool
    ensures { result ≡ is_of kind.now path.now adaptor.now }
{
    adaptor.kind().as_str() == kind.as_str() && adaptor.path().as_str() == path.as_str()
}
