//! Laws of filters and messages. Each is a function without a body, whose clauses hold of all bytes.

ghost use Rattle.chk_tee.specs.Laws.{FaultlessIsTee, TeeIsOne, TeeStandsAlone, WrittenIsTee};
ghost use Rattle.chk_tee.specs.Laws.{NotTeeExactly, NoRequest, FilterIsRead, FilterIsOne};

/// Bytes have no fault exactly where they are in the grammar of messages.
pub fn tee_grammar(bytes: &[u8])
    ensures { FaultlessIsTee bytes.now }
{}

/// Bytes are a message of one list of chunks at most.
pub fn one_message()
    ensures { TeeIsOne }
{}

/// No message begins another one.
pub fn tees_stand_alone()
    ensures { TeeStandsAlone }
{}

/// What `write_tee` writes is in the grammar, so `read_tee` gives it back.
pub fn written_is_tee()
    ensures { WrittenIsTee }
{}

/// `NotTee` comes exactly where the first five bytes, as far as they are there, are others.
pub fn first_five()
    ensures { NotTeeExactly }
{}

/// No front of a message is a request to a collector.
pub fn no_request()
    ensures { NoRequest }
{}

/// A text is read as a filter exactly where it is that filter in the grammar.
pub fn filter_grammar()
    ensures { FilterIsRead }
{}

/// A text is one filter at most.
pub fn one_filter()
    ensures { FilterIsOne }
{}
