ghost use Rattle.std.specs.Prelude.{◌≡◌, ◌+◌, OnOk, vec_len};

use chk_bytes::{Word, WordFault};
use chk_failover::{Ring, Turned};
use std::alloc::Global;

fn push(addresses: &mut Vec<Word>, alloc: Global, text: &[u8]) -> Result<(), WordFault>
    ensures { OnOk result (vec_len addresses.new ≡ vec_len addresses.old + 1) }
{
    let address = Word::new(alloc, text)?;
    addresses.push(address).map_err(|_| WordFault::NoMemory)
}

fn ring_of_three(alloc: Global) -> Result<Ring, WordFault> {
    let mut addresses = Vec::new(alloc);
    push(&mut addresses, alloc, b"a:1".as_slice())?;
    push(&mut addresses, alloc, b"b:2".as_slice())?;
    push(&mut addresses, alloc, b"c:3".as_slice())?;
    Ok(Ring::new(addresses, 0))
}

#[test]
fn three_failures(rt: HostRuntime) -> Result<(), WordFault> {
    let mut ring = ring_of_three(rt.alloc())?;
    assert_eq!(rt; ring.failed(), Turned::Next);
    assert_eq!(rt; ring.now().as_str(), "b:2");
    assert_eq!(rt; ring.failed(), Turned::Next);
    assert_eq!(rt; ring.failed(), Turned::AllTried { count: 3 });
    assert_eq!(rt; ring.now().as_str(), "a:1");
    Ok(())
}

#[test]
fn counts_anew(rt: HostRuntime) -> Result<(), WordFault> {
    let mut ring = ring_of_three(rt.alloc())?;
    assert_eq!(rt; ring.size(), 3);
    assert_eq!(rt; ring.failed(), Turned::Next);
    ring.good();
    assert_eq!(rt; ring.failed(), Turned::Next);
    assert_eq!(rt; ring.failed(), Turned::Next);
    assert_eq!(rt; ring.now().as_str(), "a:1");
    assert_eq!(rt; ring.failed(), Turned::AllTried { count: 3 });
    ring.first();
    assert_eq!(rt; ring.now().as_str(), "a:1");
    Ok(())
}
