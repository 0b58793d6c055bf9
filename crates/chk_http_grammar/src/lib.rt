//! The messages between agents and collectors, as HTTP/1.1 (RFC 9112): which bytes are accepted
//! as a post, a poll or a reply, and which are written. Definitions in `specs/`, and their laws.
#![tactic(auto)]

ghost use Rattle.chk_http_grammar.specs.Laws.{NoneBeginsAnother, MoreBytesKeepMessages, FrontDecides, MessagesHaveOneMeaning, WrittenIsAccepted, OnlyWholeIsAccepted};

/// A law: no written post, poll or reply begins another one.
pub fn no_message_begins_another()
    ensures { NoneBeginsAnother }
{}

/// A law: what is accepted stays accepted, with the same meaning, with any bytes behind it.
pub fn more_bytes_keep_messages()
    ensures { MoreBytesKeepMessages }
{}

/// A law: bytes of which some front is a request are a request. So bytes that are none have no
/// request in front.
pub fn front_decides()
    ensures { FrontDecides }
{}

/// A law: bytes are accepted in one way at most.
pub fn messages_have_one_meaning()
    ensures { MessagesHaveOneMeaning }
{}

/// A law: what is written is accepted, with just the parts that it was made of.
pub fn written_is_accepted()
    ensures { WrittenIsAccepted }
{}

/// A law: a front of a written request that is accepted is the whole of it, with just the chunks
/// or stems that were written. No address makes another request of it, since it is a word.
pub fn only_whole_is_accepted()
    ensures { OnlyWholeIsAccepted }
{}
