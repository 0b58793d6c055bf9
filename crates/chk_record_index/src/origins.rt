//! The streams that records are of, each kept once.

ghost use Rattle.std.specs.Prelude.{◌≡◌, ◌≤◌, ◌<◌, ◌++◌, ◌∷◌, [], List, length, IsTrue, OnErr, IfOk};
ghost use Rattle.std.specs.List.Sorted.{IsSearchInRange};
ghost use Rattle.chk_chunk.specs.Keys.{has_words};
ghost use Rattle.chk_chunk.specs.Lent.{lent_key};
ghost use Rattle.chk_record_index.specs.Order.{origin_before};
ghost use Rattle.chk_record_index.specs.HeadRows.{is_origin_of, origin_of, HasOrigin, HasGrown};

use chk_bytes::{NoMemory, Word, comes_before};
use chk_chunk::KeyRef;
use std::alloc::Global;
use std::cmp::Ordering;

/// A stream with a start and a cluster, as keys name them.
#[derive(Debug, Drop)]
pub(crate) struct Origin {
    pub source: Word,
    pub kind: Word,
    pub name: Word,
    pub start: u64,
    pub cluster: Word,
}

impl Origin {
    fn new(alloc: Global, key: &KeyRef<'_>) -> Result<Origin, NoMemory>
        requires { IsTrue (has_words (lent_key key.now)) }
        ensures { IfOk result (λ o. o ≡ origin_of (lent_key key.now)) }
    {
        Ok(Origin {
            source: Word::from_text(alloc, key.source)?,
            kind: Word::from_text(alloc, key.kind)?,
            name: Word::from_text(alloc, key.name)?,
            start: key.start,
            cluster: Word::from_text(alloc, key.cluster)?,
        })
    }

    fn is_of(&self, key: &KeyRef<'_>) -> bool
        ensures { result ≡ is_origin_of (lent_key key.now) self.now }
    {
        self.start == key.start
            && self.name.as_str() == key.name
            && self.source.as_str() == key.source
            && self.kind.as_str() == key.kind
            && self.cluster.as_str() == key.cluster
    }

    /// How it stands to the key's, by source, type, name, start and cluster.
    fn compare(&self, key: &KeyRef<'_>) -> Ordering {
        self.source
            .as_str()
            .cmp(key.source)
            .then_with(|| self.kind.as_str().cmp(key.kind))
            .then_with(|| self.name.as_str().cmp(key.name))
            .then(self.start.cmp(&key.start))
            .then_with(|| self.cluster.as_str().cmp(key.cluster))
    }

    /// Its stream comes before the other's, in byte order of source, type and name.
    pub(crate) fn is_before(&self, other: &Origin) -> bool
        ensures { result ≡ origin_before self.now other.now }
    {
        comes_before(self.source.as_str(), other.source.as_str())
            || self.source.as_str() == other.source.as_str()
                && (comes_before(self.kind.as_str(), other.kind.as_str())
                    || self.kind.as_str() == other.kind.as_str()
                        && comes_before(self.name.as_str(), other.name.as_str()))
    }
}

/// The origin of this number is there, and is the key's.
fn is_at(origins: &[Origin], number: u32, key: &KeyRef<'_>) -> bool
    ensures { IsTrue result → HasOrigin origins.now number (lent_key key.now) }
{
    let number = number as usize;
    number < origins.len() && origins[number].is_of(key)
}

/// Where the key's origin stands in the order, or where it is to be put in.
fn place_of(origins: &[Origin], order: &[u32], key: &KeyRef<'_>) -> Result<usize, usize>
    ensures { IsSearchInRange result (length order.now) }
{
    order.binary_search_by(|number| match origins.get(*number as usize) {
        Some(origin) => origin.compare(key),
        None => Ordering::Less,
    })
}

/// The number of the key's origin, which is put behind the others where it is new. The one at `likely` is tried first, and then
/// a search in `order`, the numbers of the origins in the order of their texts. What is found is compared once more, so that no
/// order leads to a wrong one.
pub(crate) fn number_of(
    alloc: Global,
    origins: &mut Vec<Origin>,
    order: &mut Vec<u32>,
    likely: u32,
    key: &KeyRef<'_>,
) -> Result<u32, NoMemory>
    requires { IsTrue (has_words (lent_key key.now)) }
    ensures found { IfOk result (λ n. HasOrigin origins.new.items n (lent_key key.now)) }
    ensures grown { HasGrown origins.old.items origins.new.items }
{
    if is_at(origins, likely, key) {
        return Ok(likely);
    }
    let place = match place_of(origins, order, key) {
        Ok(place) => {
            let number = order[place];
            if is_at(origins, number, key) {
                return Ok(number);
            }
            place
        }
        Err(place) => place,
    };
    add_origin(alloc, origins, order, place, key)
}

/// Puts the key's origin behind the others, and its number in the order at this place.
fn add_origin(
    alloc: Global,
    origins: &mut Vec<Origin>,
    order: &mut Vec<u32>,
    place: usize,
    key: &KeyRef<'_>,
) -> Result<u32, NoMemory>
    requires words { IsTrue (has_words (lent_key key.now)) }
    requires within { place ≤ length order.old.items }
    ensures found { IfOk result (λ n. HasOrigin origins.new.items n (lent_key key.now)) }
    ensures grown { HasGrown origins.old.items origins.new.items }
{
    let number = u32::try_from(origins.len()).map_err(|_| NoMemory)?;
    let origin = Origin::new(alloc, key)?;
    origins.push(origin)?;
    order.insert(place, number)?;
    Ok(number)
}
