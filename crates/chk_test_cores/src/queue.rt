use chk_bytes::{Bytes, Word};
use chk_chunk::Chunk;
use chk_queue::{PutFault, Queue};
use std::alloc::Global;
use std::test::Fail;

fn sample(alloc: Global, kind: &[u8], seq: u64, body: &[u8]) -> Result<Chunk, Fail> {
    let source = Word::new(alloc, b"h1")?;
    let kind = Word::new(alloc, kind)?;
    let name = Word::new(alloc, b"/a.log")?;
    let cluster = Word::new(alloc, b"none")?;
    let body = Bytes::from_slice(alloc, body)?;
    Ok(Chunk {
        source,
        kind,
        name,
        start: 0,
        cluster,
        seq,
        body,
    })
}

#[test]
fn limit_of_ten(rt: HostRuntime) -> Result<(), Fail> {
    let alloc = rt.alloc();
    let mut queue = Queue::new(alloc, 10);
    assert!(rt; queue.is_empty());
    queue.put(sample(alloc, b"Log", 6, b"hello\n")?)?;
    match queue.put(sample(alloc, b"Log", 11, b"world")?) {
        Err(PutFault::Full { used, need, chunk }) => {
            assert!(rt; used == 6 && need == 5);
            assert!(rt; chunk.seq == 11 && chunk.body.as_slice() == b"world".as_slice());
        }
        _ => panic!(rt; "eleven bytes pass the limit"),
    }
    queue.put(sample(alloc, b"Sys", 4, b"four")?)?;
    assert!(rt; queue.used() == 10 && queue.len() == 2);
    for (chunks, bytes, count) in [
        (1000, 4_194_304, 2),
        (1, 4_194_304, 1),
        (0, 4_194_304, 0),
        (2, 82, 2),
        (2, 81, 1),
        (2, 44, 1),
        (2, 43, 0),
        (2, 3, 0),
    ] {
        assert!(rt;
            queue.front(chunks, bytes).len() == count,
            "{chunks} {bytes}"
        );
    }
    Ok(())
}

#[test]
fn dropped_chunks(rt: HostRuntime) -> Result<(), Fail> {
    let alloc = rt.alloc();
    let mut queue = Queue::new(alloc, 100);
    for seq in 1..10 {
        queue.put(sample(alloc, b"Log", seq, b"ab")?)?;
    }
    assert!(rt; queue.len() == 9 && queue.used() == 18);
    queue.drop_front(2);
    let front = queue.front(1, 1000);
    assert!(rt; front.len() == 1);
    assert!(rt; front[0].seq == 3 && queue.used() == 14);
    queue.keep(&[false, true, false, true, false, true, false]);
    assert!(rt; queue.len() == 3 && queue.used() == 6);
    queue.drop_front(2);
    let front = queue.front(9, 1000);
    assert!(rt; front.len() == 1);
    assert!(rt; front[0].seq == 8 && queue.used() == 2);
    queue.keep(&[true]);
    assert!(rt; queue.len() == 1);
    Ok(())
}

#[test]
fn dropped_stream(rt: HostRuntime) -> Result<(), Fail> {
    let alloc = rt.alloc();
    for (name, kind, path, left, used) in [
        ("one of two types", "Log", "/a.log", 2, 7),
        ("the other type", "Sys", "/a.log", 3, 9),
        ("a path that no chunk has", "Log", "/b.log", 5, 16),
        ("a type that no chunk has", "Lo", "/a.log", 5, 16),
    ] {
        let mut queue = Queue::new(alloc, 100);
        queue.put(sample(alloc, b"Log", 9, b"gone")?)?;
        queue.put(sample(alloc, b"Log", 12, b"one")?)?;
        queue.put(sample(alloc, b"Sys", 3, b"two")?)?;
        queue.put(sample(alloc, b"Log", 14, b"it")?)?;
        queue.put(sample(alloc, b"Sys", 7, b"four")?)?;
        queue.put(sample(alloc, b"Log", 18, b"more")?)?;
        queue.drop_front(1);
        queue.drop_stream(kind, path);
        assert!(rt; queue.len() == left && queue.used() == used, "{name}");
    }
    Ok(())
}
