//! Laws of keys and posts. Each is a function without a body, whose clauses hold of all bytes.

ghost use Rattle.chk_chunk.specs.Laws.{FaultlessIsKey, FaultlessIsPost, KeyIsOne, PostIsOne};
ghost use Rattle.chk_chunk.specs.Laws.{KeyStandsAlone, PostStandsAlone, WrittenKeyIsKey};
ghost use Rattle.chk_chunk.specs.Laws.{WrittenPostIsPost, KeyIsRead};

/// Bytes have no fault as a key exactly where they are in the grammar of keys.
pub fn key_grammar(bytes: &[u8])
    ensures { FaultlessIsKey bytes.now }
{}

/// A body has no fault as a post exactly where it is in the grammar of posts.
pub fn post_grammar(body: &[u8])
    ensures { FaultlessIsPost body.now }
{}

/// Bytes are one key at most, and a body is a post of one list of chunks at most.
pub fn one_reading()
    ensures key { KeyIsOne }
    ensures post { PostIsOne }
{}

/// No spelling of a key begins another one, and no post begins another one.
pub fn prefix_free()
    ensures key { KeyStandsAlone }
    ensures post { PostStandsAlone }
{}

/// What `write_key` and `write_post` write is in the grammar, so `read_key` and `read_post` give it
/// back.
pub fn written_is_in_grammar()
    ensures key { WrittenKeyIsKey }
    ensures post { WrittenPostIsPost }
{}

/// The definition that computes a key of bytes gives just the key that they are.
pub fn key_is_read()
    ensures { KeyIsRead }
{}
