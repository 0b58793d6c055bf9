//! Goes over sync entries, and looks for the next one.

ghost use Rattle.std.specs.Prelude.{◌≡◌, ◌≤◌, length, drop};
ghost use Rattle.chk_salvage.specs.Front.{next_sync};
ghost use Rattle.chk_salvage.specs.Skipping.{IsBehindSyncs};

use crate::entry::{Seen, begins_with_sync, entry_from};

/// The place behind the sync entries that stand at a place.
pub(crate) fn behind_syncs(marker: &[u8; 16], bytes: &[u8], at: usize) -> usize
    requires { at ≤ length bytes.now }
    ensures { IsBehindSyncs marker.now bytes.now at result }
{
    let mut place = at;
    while let Seen::Sync = entry_from(marker, bytes, place) {
        place += 20;
    }
    place
}

/// The first place from the one given at which a whole sync entry stands.
pub(crate) fn find_sync(marker: &[u8; 16], bytes: &[u8], from: usize) -> Option<usize>
    ensures { result ≡ next_sync marker.now from (drop from bytes.now) }
{
    for at in from..bytes.len() {
        if begins_with_sync(marker, &bytes[at..]) {
            return Some(at);
        }
    }
    None
}
