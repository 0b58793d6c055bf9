// What was printed.
ghost use Rattle.std.specs.Prelude.{◌≡◌, IfOk};
ghost use Rattle.chk_site_mem.specs.Printed.{said_in, printed_of};

use chk_bytes::{Bytes, NoMemory};
use chk_site::{Act, ActAnswer, Call};
use chk_site_mem_store::first;
use std::alloc::Global;

/// The bytes of all `say` acts that were done, in order.
pub fn printed(alloc: Global, acts: &[Act]) -> Result<Bytes, NoMemory>
    ensures { IfOk result (λ bytes. bytes ≡ printed_of acts.now) }
{
    let mut bytes = Bytes::new(alloc);
    for act in acts {
        bytes.push_all(said_in(act))?;
    }
    Ok(bytes)
}

fn said_in(act: &Act) -> &[u8]
    ensures { result.now ≡ said_in act.now }
{
    match (act.call, &act.answer) {
        (Call::Say, ActAnswer::Done { .. }) => first(act.words.as_slice()),
        _ => &[],
    }
}
