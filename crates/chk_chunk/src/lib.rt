//! Chunks, the unit in which the bytes of logs travel, and the bytes of their keys and posts.
//!
//! A **chunk** is a run of a log's bytes with its stream (source, data type and name), the stream's
//! start, a cluster, and a sequence id: the offset in the stream just past the run's last byte.
//! A **key** is a chunk without its data. A **post** is 1 to 1,000 chunks, in at most 4 MiB.
#![tactic(auto)]

ghost use Rattle.std.specs.Prelude.{◌≡◌, IsTrue};
ghost use Rattle.chk_chunk.specs.Keys.{has_words};
ghost use Rattle.chk_chunk.specs.Lent.{lent_chunk, chunk_of};

mod faults;
mod fields;
mod keys;
mod laws;
mod posts;

use chk_bytes::{Bytes, Word};
pub use faults::ChunkFault;
pub use keys::{read_key, write_key};
pub use laws::{
    key_grammar, key_is_read, one_reading, post_grammar, prefix_free, written_is_in_grammar,
};
pub use posts::{PostRef, chunk_size, post_size, put_post, read_post, write_post};

/// The most bytes of a chunk's data.
pub const CHUNK_BYTES: u64 = 131_072;

/// The most chunks of a post.
pub const POST_CHUNKS: u32 = 1000;

/// The most bytes of a post.
pub const POST_BYTES: u64 = 4_194_304;

/// A chunk that borrows its texts and its data.
#[derive(Clone, Copy, Debug, PartialEq, Eq)]
pub struct ChunkRef<'a> {
    /// The agent that read the bytes.
    pub source: &'a str,
    /// The data type, which the agent's user chose.
    pub kind: &'a str,
    /// The stream's name: the path of the log.
    pub name: &'a str,
    /// The offset of the stream's first byte, below 2^62.
    pub start: u64,
    /// The cluster that the agent names, `none` where it names none.
    pub cluster: &'a str,
    /// The offset just past the last byte of `body`, counted as `start` is, below 2^63.
    pub seq: u64,
    /// The data, 1 to 131,072 bytes.
    pub body: &'a [u8],
}

/// A chunk that owns its texts and its data. The fields are those of `ChunkRef`.
#[derive(Debug, Drop)]
pub struct Chunk {
    pub source: Word,
    pub kind: Word,
    pub name: Word,
    pub start: u64,
    pub cluster: Word,
    pub seq: u64,
    pub body: Bytes,
}

impl Chunk {
    /// The same chunk, borrowed.
    pub fn lend(&self) -> ChunkRef<'_>
        ensures chunk { lent_chunk result ≡ chunk_of self.now }
        ensures words { IsTrue (has_words (chunk_of self.now).key) }
    {
        ChunkRef {
            source: self.source.as_str(),
            kind: self.kind.as_str(),
            name: self.name.as_str(),
            start: self.start,
            cluster: self.cluster.as_str(),
            seq: self.seq,
            body: self.body.as_slice(),
        }
    }
}

/// A chunk's key. The fields are those of `ChunkRef`.
#[derive(Clone, Copy, Debug, PartialEq, Eq)]
pub struct KeyRef<'a> {
    pub source: &'a str,
    pub kind: &'a str,
    pub name: &'a str,
    pub start: u64,
    pub cluster: &'a str,
    pub seq: u64,
}
