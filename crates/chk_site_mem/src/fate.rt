// How a call comes out by the script.
use chk_site::Lefts;

/// A call goes on, fails, or stops and leaves this.
#[derive(Drop)]
pub enum Fate {
    Goes,
    Fails,
    Stops(Lefts),
}
