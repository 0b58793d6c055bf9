//! The names in a folder, as they were listed.

ghost use Rattle.std.specs.Prelude.{◌≡◌, ◌↔◌, ◌≤◌, ℕ, length, take, drop, IsTrue};
ghost use Rattle.chk_site_listings.specs.Names.{begins, with_front, IsEndOfFront, IsEndOfLower, IsFrom, IsInOrder, IsOfBoth};

use crate::stamps::Stamp;
use chk_bytes::{Word, comes_before};

/// The names in a folder that may be those of rotated generations.
#[derive(Drop)]
pub struct Listing {
    pub folder: String,
    /// The folder's stamp before it was listed; none where the folder wasn't settled then.
    pub stamp: Option<Stamp>,
    /// In byte order.
    pub names: Vec<Word>,
}

impl Listing {
    /// A folder with this stamp has these names.
    pub fn is_current(&self, stamp: &Option<Stamp>) -> bool
        ensures { IsTrue result ↔ IsOfBoth self.now.stamp stamp.now }
    {
        match (&self.stamp, stamp) {
            (Some(kept), Some(stamp)) => kept == stamp,
            _ => false,
        }
    }

    /// The names that begin so, in their order. It searches by halves, so where the names aren't in byte
    /// order it gives only some part of them.
    pub fn beginning_with(&self, front: &str) -> &[Word]
        ensures fronts { let names = self.now.names.items in
            IsInOrder names → result.now ≡ with_front front.now names }
        ensures part { (i n : ℕ) × (result.now ≡ take n (drop i self.now.names.items)) }
    {
        let from = count_below(&self.names, front);
        let rest = &self.names[from..];
        let count = count_beginning(rest, front);
        &rest[..count]
    }
}

// How many of the names come before the text.
fn count_below(names: &[Word], text: &str) -> usize
    ensures within { result ≤ length names.now }
    ensures place { IsInOrder names.now → IsEndOfLower names.now text.now result }
{
    names.partition_point(|name| comes_before(name.as_str(), text))
}

// How many of the names begin so, where none comes before that.
fn count_beginning(names: &[Word], front: &str) -> usize
    ensures within { result ≤ length names.now }
    ensures place { IsFrom front.now names.now → IsEndOfFront names.now front.now result }
{
    names.partition_point(|name| begins_with(name.as_str(), front))
}

fn begins_with(name: &str, front: &str) -> bool
    ensures { result ≡ begins front.now name.now }
{
    name.as_bytes().starts_with(front.as_bytes())
}
