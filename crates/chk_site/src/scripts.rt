// What happens at a site in memory besides the calls on it.
use crate::acts::Act;
use crate::lists::Lefts;

/// An act of another process, that happens before the call with this number.
#[derive(Drop)]
pub struct Other {
    pub before: u64,
    pub act: Act,
}

/// The call at which the site stops, and what the stop leaves.
#[derive(Drop)]
pub struct StopAt {
    pub at: u64,
    pub left: Lefts,
}

/// What happens besides: the acts of others, in order; the calls that fail; the takings at other doors than the
/// mailbox after which the same message is handed out once more; and at most one stop. Calls and takings are counted
/// from 1 for each script.
#[derive(Drop)]
pub struct Script {
    pub others: Vec<Other>,
    pub failing: Vec<u64>,
    pub again: Vec<u64>,
    pub stop: Option<StopAt>,
}
