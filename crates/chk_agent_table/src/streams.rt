//! The table of streams.

ghost use Rattle.std.specs.Prelude.{◌≡◌, ◌<◌, ◌≤◌, ◌+◌, ◌++◌, [], ◌∷◌, None};
ghost use Rattle.std.specs.String.{string_bytes};
ghost use Rattle.std.specs.HashMap.{get_by_text};
ghost use Rattle.indexmap.specs.IndexMap.{spare};

use crate::hashing::Hashing;
use chk_agent_adaptor::Adaptor;
use indexmap::IndexMap;

/// The adaptor of each stream, in order of adding.
pub(crate) type Streams = IndexMap<String, Adaptor, Hashing>;

/// Puts the adaptor behind the others, under a key that none of them has. There is room for it.
pub(crate) fn put(streams: &mut Streams, key: String, adaptor: Adaptor)
    requires room { 0 < spare streams.old }
    requires new { get_by_text streams.old (string_bytes key) ≡ None }
    ensures entries { streams.new.entries ≡ streams.old.entries ++ (key, adaptor) ∷ [] }
    ensures spare { spare streams.old ≤ spare streams.new + 1 }
{
    match streams.insert(key, adaptor) {
        Ok(_) => {}
        Err(_) => unreachable!(),
    }
}
