//! Laws of the definitions.

ghost use Rattle.chk_tee_laws.specs.Laws.{PassedIsOne, PassedIsThere, PassedOnIsMessage, PassedRises, PrintedIsPassed};

/// What a filter lets pass of the chunks that a collector answered is of the collector's own sinks, and
/// rises strictly by the collector's start, the sink's number and the offset. It runs nothing.
pub fn law_passed_rises()
    ensures rises { PassedRises }
{}

/// Of each history one list at most is what passes. It runs nothing.
pub fn law_passed_is_one()
    ensures one { PassedIsOne }
{}

/// No history is without a list of what passes. It runs nothing.
pub fn law_passed_is_there()
    ensures there { PassedIsThere }
{}

/// What a subscriber is sent of an answered post is a message of what passes its filter. It runs nothing.
pub fn law_passed_on_is_message()
    ensures message { PassedOnIsMessage }
{}

/// What a watcher prints of a collector is a part of what passes of it, in its order and each chunk once,
/// whatever of its messages was lost, repeated or late. It runs nothing.
pub fn law_printed_is_passed()
    ensures part { PrintedIsPassed }
{}
