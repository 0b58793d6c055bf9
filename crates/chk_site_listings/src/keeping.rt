//! The listings that are kept.

ghost use Rattle.std.specs.Prelude.{◌≡◌, IfNone, IfSome, IsFalse, IsTrue, [], None, position, sum_by};
ghost use Rattle.chk_site_listings.specs.Keeping.{has_room, is_of, may_keep, name_count, with_room, IsBounded, IsKept, IsTaken};

use crate::names::Listing;
use std::alloc::Global;
use std::marker::Model;

/// How many folders' names are kept; then those go that were asked for least lately.
pub const MOST_FOLDERS: usize = 64;

/// How many names are kept in all folders.
pub const MOST_NAMES: usize = 65_536;

/// What was listed, the folder that was asked for last at the end.
#[derive(Drop)]
pub struct Listings {
    kept: Vec<Listing>,
}

impl Model for Listings {
    ghost use Rattle.std.specs.Prelude.{List};
    ghost use Rattle.chk_site_listings.specs.declared.names.Listing.{Listing};
    ghost use Rattle.chk_site_listings.specs.Keeping.{IsBounded};

    ghost Value = { List Listing };

    ghost view = { λ l. l.kept.items };

    ghost invariant = { λ l. IsBounded l.kept.items };
}

impl Listings {
    pub fn new(alloc: Global) -> Listings
        ensures { result ≡ [] }
    {
        Listings {
            kept: Vec::new(alloc),
        }
    }

    /// The first listing that is kept of the folder. It isn't kept from then on; the others are, in their
    /// order. Where each listing of a folder is taken before one of the same folder is kept, there is no
    /// second one.
    pub fn take(&mut self, folder: &str) -> Option<Listing>
        ensures bounded { IsBounded self.new }
        ensures taken { IfSome result (λ listing. IsTaken self.old self.new folder.now listing) }
        ensures none { IfNone result (self.new ≡ self.old) }
        ensures absent { IfNone result (position (is_of folder.now) self.old ≡ None) }
    {
        let place = self.place_of(folder)?;
        Some(self.kept.remove(place))
    }

    /// A listing of a folder that wasn't settled, or of too many names, isn't kept. Any other one is the
    /// last then, and those that were asked for least lately go, no more than have to. Want of memory is
    /// no fault: then the folder is listed again.
    pub fn keep(&mut self, listing: Listing)
        ensures bounded { IsBounded self.new }
        ensures kept { IsTrue (may_keep listing) → IsKept self.old self.new listing }
        ensures other { IsFalse (may_keep listing) → self.new ≡ self.old }
    {
        // Opens the bounds, which hold also where nothing is kept.
        let _ = &self.kept;
        if listing.stamp.is_none() || listing.names.len() > MOST_NAMES {
            return;
        }
        self.make_place(listing.names.len());
        let _kept = self.kept.push(listing);
    }

    fn place_of(&self, folder: &str) -> Option<usize>
        ensures place { result ≡ position (is_of folder.now) self.now }
        ensures bounded { IsBounded self.now }
    {
        self.kept
            .iter()
            .position(|listing| listing.folder.as_str() == folder)
    }

    // Lets go of what was asked for least lately, until there is a place for so many names.
    fn make_place(&mut self, names: usize)
        ensures { self.new ≡ with_room names self.old }
    {
        while !self.kept.is_empty() && !self.has_place(names) {
            let _oldest = self.kept.remove(0);
        }
    }

    fn has_place(&self, names: usize) -> bool
        ensures { result ≡ has_room names self.now }
    {
        self.kept.len() < MOST_FOLDERS && self.count().saturating_add(names) <= MOST_NAMES
    }

    // How many names are kept.
    fn count(&self) -> usize
        ensures count { result ≡ sum_by name_count self.now }
        ensures bounded { IsBounded self.now }
    {
        let mut count = 0;
        for listing in &self.kept {
            count += listing.names.len();
        }
        count
    }
}
