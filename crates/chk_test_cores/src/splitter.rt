//! Tests of splitters: what is given of texts, however they are cut.
use chk_bytes::Bytes;
use chk_demux_split::{LINE_BYTES, RECORD_BYTES, Splitter};
use std::alloc::Global;
use std::test::Fail;

// Feeds all of the bytes, and puts each record that is given behind the others, with a bar.
fn feed_all(splitter: &mut Splitter, bytes: &[u8], records: &mut Bytes) -> Result<(), Fail> {
    let mut rest = bytes;
    for _ in 0..bytes.len() {
        if rest.is_empty() {
            break;
        }
        let taken = splitter.feed(rest)?;
        if let Some(record) = splitter.complete() {
            records.push_all(record)?;
            records.push_all(b"|")?;
        }
        rest = &rest[taken..];
    }
    Ok(())
}

// The records of a text that is cut in two, each with a bar behind it, and how many bytes are left.
fn split_cut(
    alloc: Global,
    by_stamps: bool,
    first: &[u8],
    second: &[u8],
) -> Result<(Bytes, usize), Fail> {
    let mut splitter = Splitter::new(alloc, by_stamps);
    let mut records = Bytes::new(alloc);
    feed_all(&mut splitter, first, &mut records)?;
    feed_all(&mut splitter, second, &mut records)?;
    Ok((records, splitter.pending()))
}

#[test]
fn texts_cut_anywhere(rt: HostRuntime) -> Result<(), Fail> {
    let alloc = rt.alloc();
    for (name, by_stamps, text, records, left) in [
        ("no bytes", false, "", "", 0),
        ("no bytes by stamps", true, "", "", 0),
        ("an open line", false, "abc", "", 3),
        ("lines", false, "a\nbc\n\nd", "a\n|bc\n|\n|", 1),
        (
            "a stamp is a line",
            false,
            "2026-11-27 23:58:54,123 a\nb\n",
            "2026-11-27 23:58:54,123 a\n|b\n|",
            0,
        ),
        (
            "one record isn't complete",
            true,
            "2026-11-27 23:58:54,123 a\nb\n",
            "",
            28,
        ),
        (
            "a stamp begins a record",
            true,
            "2026-11-27 23:58:54,123 a\n b\n2026-11-27 23:58:55,001\n2026-11-27 23:58:56,0",
            "2026-11-27 23:58:54,123 a\n b\n|",
            45,
        ),
        (
            "two stamps",
            true,
            "2026-11-27 23:58:54,123 a\n2026-11-27 23:58:55,001\n2026-11-27 23:58:56,000\n",
            "2026-11-27 23:58:54,123 a\n|2026-11-27 23:58:55,001\n|",
            24,
        ),
        (
            "lines before the first stamp are a record",
            true,
            "a\n\n2026-11-27 23:58:54,123\n",
            "a\n\n|",
            24,
        ),
        (
            "a stamp in the middle of a line begins none",
            true,
            "a\nb 2026-11-27 23:58:54,123\n 2026-11-27 23:58:54,123\n",
            "",
            53,
        ),
        (
            "what is nearly a stamp begins none",
            true,
            "a\n2026-11-27T23:58:54,123\n2026-11-27 23:58:54.123\n2026-11-27 23:58:54,12\n",
            "",
            73,
        ),
    ] {
        let text = text.as_bytes();
        for cut in 0..=text.len() {
            let (first, second) = text.split_at(cut);
            let (given, pending) = split_cut(alloc, by_stamps, first, second)?;
            assert!(rt; given.as_slice() == records.as_bytes(), "{name} {cut}");
            assert!(rt; pending == left, "{name} {cut}");
        }
    }
    Ok(())
}

// Feeds so many equal lines, and answers the length of the last record that was given, or 0.
fn feed_lines(splitter: &mut Splitter, line: &[u8], count: usize) -> Result<usize, Fail> {
    let mut last = 0;
    for _ in 0..count {
        splitter.feed(line)?;
        if let Some(record) = splitter.complete() {
            last = record.len();
        }
    }
    Ok(last)
}

#[test]
fn long_lines(rt: HostRuntime) -> Result<(), Fail> {
    let alloc = rt.alloc();
    for (name, by_stamps, pieces, given, pending) in [
        ("one byte short of a line's end", false, 131_071, 0, 131_071),
        ("a line ends without a newline", false, 131_072, 131_072, 0),
        ("the next line begins", false, 131_073, 131_072, 1),
        ("its line is of a record", true, 131_073, 0, 131_073),
    ] {
        let mut splitter = Splitter::new(alloc, by_stamps);
        let last = feed_lines(&mut splitter, b"x", pieces)?;
        assert!(rt; last == given, "{name}");
        assert!(rt; splitter.pending() == pending, "{name}");
    }
    let mut line = Bytes::new(alloc);
    for _ in 0..LINE_BYTES + 1 {
        line.push_all(b"x")?;
    }
    let mut splitter = Splitter::new(alloc, false);
    assert!(rt; splitter.feed(line.as_slice())? == 131_072);
    assert!(rt; splitter.pending() == 0);
    assert!(rt; splitter.complete().is_some());
    Ok(())
}

#[test]
fn long_records(rt: HostRuntime) -> Result<(), Fail> {
    let alloc = rt.alloc();
    let stamp: &[u8] = b"2026-11-27 23:58:54,123 012345678901234567890123456789012345678\n";
    let plain: &[u8] = b" 2026-11-27 23:58:54,123 01234567890123456789012345678901234567\n";
    for (name, lines, next, given, pending) in [
        (
            "a record of the limit isn't complete",
            16_383,
            b"".as_slice(),
            0,
            1_048_576,
        ),
        ("a stamp completes it", 16_383, stamp, 1_048_576, 64),
        (
            "a line over the limit completes it",
            16_383,
            plain,
            1_048_576,
            64,
        ),
        (
            "a newline over the limit completes it",
            16_383,
            b"\n".as_slice(),
            1_048_576,
            1,
        ),
        ("a line up to the limit joins", 16_382, plain, 0, 1_048_576),
        (
            "a line counts only once it has ended",
            16_382,
            b"x".as_slice(),
            0,
            1_048_513,
        ),
    ] {
        let mut splitter = Splitter::new(alloc, true);
        splitter.feed(stamp)?;
        let last = feed_lines(&mut splitter, plain, lines)?;
        assert!(rt; last == 0, "{name}");
        let last = feed_lines(&mut splitter, next, 1)?;
        assert!(rt; last == given, "{name}");
        assert!(rt; splitter.pending() == pending, "{name}");
    }
    assert!(rt; RECORD_BYTES == 1_048_576);
    Ok(())
}
