//! How words are hashed.

ghost use Rattle.chk_agent_table.specs.Hashing.{first_hasher};

use std::hash::{BuildHasher, DefaultHasher, RandomState};

/// How the words are hashed by which adaptors are found. No answer rests on it, but the time that a
/// look-up takes does.
#[derive(Clone, Copy)]
pub enum Hashing {
    /// By keys that anybody knows, for words that no stranger chooses.
    Fixed,
    /// By keys that nobody knows, so that nobody can choose many words of one hash.
    Random(RandomState),
}

impl BuildHasher for Hashing {
    type Hasher = DefaultHasher;

    ghost build_hasher = { first_hasher };

    fn build_hasher(&self) -> DefaultHasher {
        match *self {
            Hashing::Fixed => DefaultHasher::new(),
            Hashing::Random(keys) => keys.build_hasher(),
        }
    }
}
