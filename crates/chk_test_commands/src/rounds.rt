// Rounds within limits that the command doesn't have.
ghost use Rattle.std.specs.Prelude.{◌≤◌, IfOk, IsTrue};
ghost use Rattle.chk_world.specs.Names.{is_source};

use chk_bytes::Word;
use chk_control::Class;
use chk_round::{Limits, RoundWords, round_within};
use chk_test_engine::{Outside, plain};
use std::alloc::Global;
use std::test::Fail;

// A round of h1 on the log /a.log of the type Log.
fn words(alloc: Global) -> Result<RoundWords, Fail>
    ensures name { IfOk result (λ words. IsTrue (is_source words.source)) }
    ensures reads { IfOk result (λ words. 1 ≤ words.reads) }
{
    let mut logs = Vec::new(alloc);
    logs.push(Word::new(alloc, b"/a.log".as_slice())?)?;
    Ok(RoundWords {
        source: Word::new(alloc, b"h1".as_slice())?,
        kind: Word::new(alloc, b"Log".as_slice())?,
        class: Class::Plain,
        reads: 10,
        cluster: Word::new(alloc, b"none".as_slice())?,
        logs,
    })
}

// A round of an agent that holds so many rows of answers, and so many bytes of data. Each is at least
// what an agent has to hold.
pub(crate) fn round_of(outside: &mut Outside, text: &str) -> Result<String, Fail> {
    let (rows, queue) = text.split_once(' ').ok_or("no queue")?;
    let (rows, queue): (u32, u64) = (rows.parse()?, queue.parse()?);
    let limits = Limits {
        rows: rows.max(1),
        queue: queue.max(131_072),
    };
    let alloc = outside.alloc;
    let given = words(alloc)?;
    outside.restart();
    outside.begin();
    match round_within(alloc, &mut outside.site, &given, limits) {
        Ok(_) => plain(alloc, "done"),
        Err(_) => plain(alloc, "refused"),
    }
}
