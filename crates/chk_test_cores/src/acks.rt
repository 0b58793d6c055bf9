use chk_acks::Acks;
use chk_bytes::Stem;
use std::test::Fail;

// The first sink of a collector's first start.
fn sink(name: &str) -> Result<Stem, Fail> {
    Ok(Stem::new(name, 1, 1).ok_or("no stem")?)
}

#[test]
fn committed_is_contiguous_row(rt: HostRuntime) -> Result<(), Fail> {
    let one = sink("c1")?;
    let other = sink("c2")?;
    let mut acks = Acks::new(rt.alloc(), 2, 1)?;
    acks.begin(0, 0);
    acks.answered(0, 0, 6, one, 144, 0);
    acks.answered(0, 6, 12, other, 144, 0);
    assert_eq!(rt; acks.free(), 0);
    acks.seen(other, 144);
    assert_eq!(rt; acks.committed_end(0), 0);
    assert_eq!(rt; acks.free(), 0);
    assert_eq!(rt; acks.expired(299999, 300000), None);
    assert_eq!(rt; acks.expired(300000, 300000), Some(0));
    acks.begin(0, 0);
    assert_eq!(rt; acks.free(), 2);
    acks.answered(0, 0, 12, other, 198, 0);
    acks.seen(other, 197);
    assert_eq!(rt; acks.committed_end(0), 0);
    acks.seen(other, 198);
    assert_eq!(rt; acks.committed_end(0), 12);
    Ok(())
}

#[test]
fn expiry_moment(rt: HostRuntime) -> Result<(), Fail> {
    let mut acks = Acks::new(rt.alloc(), 2, 2)?;
    acks.begin(1, 6);
    acks.answered(1, 6, 12, sink("c1")?, 144, 0);
    acks.answered(0, 0, 6, sink("c2")?, 144, 1);
    for (now, expired) in [
        (299999, None),
        (300000, Some(1)),
        (300001, Some(0)),
        (0, None),
    ] {
        assert_eq!(rt; acks.expired(now, 300000), expired, "at {now}");
    }
    Ok(())
}

#[test]
fn waiting_in_order(rt: HostRuntime) -> Result<(), Fail> {
    let one = sink("c1")?;
    let other = sink("c2")?;
    let mut acks = Acks::new(rt.alloc(), 3, 2)?;
    acks.answered(1, 0, 6, one, 144, 0);
    acks.answered(0, 0, 6, other, 144, 0);
    acks.answered(0, 6, 12, one, 192, 0);
    acks.seen(one, 191);
    assert!(rt; acks.waiting(0) == Some((other, 144)));
    assert!(rt; acks.waiting(1) == Some((one, 192)));
    assert!(rt; acks.waiting(2).is_none());
    assert_eq!(rt; acks.last_end(0), 12);
    assert_eq!(rt; acks.committed_end(1), 6);
    Ok(())
}

#[test]
fn expired_go_back(rt: HostRuntime) -> Result<(), Fail> {
    let one = sink("c1")?;
    let mut acks = Acks::new(rt.alloc(), 4, 3)?;
    assert_eq!(rt; acks.adaptors(), 3);
    acks.answered(2, 0, 6, one, 144, 0);
    acks.answered(0, 0, 6, one, 192, 1);
    acks.answered(2, 6, 12, sink("c2")?, 144, 7);
    acks.seen(one, 144);
    let mut gone = [false, false, false];
    acks.expired_all(10, 3, &mut gone);
    assert!(rt; gone == [true, false, true]);
    acks.reset(&gone);
    assert_eq!(rt; acks.free(), 4);
    assert_eq!(rt; acks.last_end(0), 0);
    assert_eq!(rt; acks.last_end(2), 6);
    assert_eq!(rt; acks.committed_end(2), 6);
    Ok(())
}
