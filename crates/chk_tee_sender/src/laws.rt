//! Laws of the sieve. Each is a function without a body, whose clauses hold of all places.

ghost use Rattle.chk_tee_sender.specs.Sieves.{EachOnce, FreshIsAbove};

/// A place is fresh exactly where it is above every place that the sieve was asked for before of the
/// same collector, by start, number and offset.
pub fn fresh_is_above()
    ensures { FreshIsAbove }
{}

/// What a sieve lets through of a collector rises strictly by start, number and offset, so each place
/// is let through once, in whatever order and however often it is asked for.
pub fn each_once()
    ensures { EachOnce }
{}
