//! SequenceFiles as they are written, and a header that comes byte by byte.
ghost use Rattle.std.specs.Prelude.{◌≤◌, length};

use chk_seqfile::{HeaderFault, HeaderRef, SeqWriter, TextsLeft, header, read_header_on};
use std::alloc::{AllocError, Global};
use std::test::Fail;

/// The class of keys and values, behind its length.
const CLASS: &[u8] = b"\x22org.apache.hadoop.io.BytesWritable";

/// The MD5 of `c1.1.1`.
const MARKER: [u8; 16] = [
    0x0a, 0xf0, 0x97, 0x25, 0xe9, 0x50, 0xf7, 0x0f, 0x42, 0xf5, 0x31, 0xed, 0xf6, 0x35, 0xb2, 0x40,
];

fn joined(alloc: Global, parts: &[&[u8]]) -> Result<Vec<u8>, AllocError> {
    let mut bytes = Vec::new(alloc);
    for part in parts {
        bytes.extend_from_slice(part)?;
    }
    Ok(bytes)
}

fn is_header_written(alloc: Global) -> Result<bool, Fail> {
    let expected = joined(alloc, &[b"SEQ\x06", CLASS, CLASS, &[0; 6], &MARKER])?;
    let written = header(alloc, "c1.1.1")?;
    Ok(expected.len() == 96 && written.as_slice() == expected.as_slice())
}

#[test]
fn writes_a_header(rt: HostRuntime) -> Result<(), Fail> {
    assert!(rt; is_header_written(rt.alloc())?);
    Ok(())
}

const KEY: &[u8] = b"\x01\0\0\0\0\0\0\0\x06\0\x02h1\0\x03Log\0\x06/a.log";

fn is_record(alloc: Global, piece: &[u8]) -> Result<bool, Fail> {
    let expected = joined(
        alloc,
        &[b"\0\0\0\x28\0\0\0\x1e\0\0\0\x1a", KEY, b"\0\0\0\x06hello\n"],
    )?;
    Ok(piece == expected.as_slice())
}

fn is_record_written(alloc: Global) -> Result<bool, Fail> {
    let mut writer = SeqWriter::after_header("c1.1.1");
    let piece = writer.entry(alloc, KEY, b"hello\n")?;
    Ok(is_record(alloc, piece.as_slice())? && writer.place() == 144)
}

#[test]
fn writes_records(rt: HostRuntime) -> Result<(), Fail> {
    assert!(rt; is_record_written(rt.alloc())?);
    Ok(())
}

fn begins_with_sync(alloc: Global, piece: &[u8]) -> Result<bool, Fail> {
    let sync = joined(alloc, &[&[255; 4], &MARKER])?;
    Ok(piece.starts_with(&sync))
}

// The ends of a record of this value and of the next one, and whether the next one has a sync entry.
fn ends_so(
    alloc: Global,
    value: &[u8],
    first_end: u64,
    second_end: u64,
    synced: bool,
) -> Result<bool, Fail>
    requires value { length value.now ≤ 2000 }
    requires first_end { first_end ≤ 4000 }
{
    let mut writer = SeqWriter::after_header("c1.1.1");
    writer.entry(alloc, &[0; 26], value)?;
    if writer.place() != first_end {
        return Ok(false);
    }
    let piece = writer.entry(alloc, &[0; 26], b"hello\n")?;
    Ok(writer.place() == second_end && begins_with_sync(alloc, piece.as_slice())? == synced)
}

fn zeros_end_so(
    alloc: Global,
    size: usize,
    first_end: u64,
    second_end: u64,
    synced: bool,
) -> Result<bool, Fail>
    requires size { size ≤ 2000 }
    requires first_end { first_end ≤ 4000 }
{
    let value = vec![in alloc; 0u8; size]?;
    ends_so(alloc, &value, first_end, second_end, synced)
}

#[test]
fn sync_entry_at_2000(rt: HostRuntime) -> Result<(), Fail> {
    assert!(rt;
        zeros_end_so(rt.alloc(), 1958, 2096, 2164, true)?,
        "1958 bytes"
    );
    assert!(rt;
        zeros_end_so(rt.alloc(), 1957, 2095, 2143, false)?,
        "1957 bytes"
    );
    Ok(())
}

// A header of 113 bytes with three pairs of texts.
fn header_of_texts(alloc: Global) -> Result<Vec<u8>, AllocError> {
    let texts: &[u8] = b"\x01a\0\x8f\x02bc\x03def\x8e\0\x01g\x01h";
    joined(
        alloc,
        &[b"SEQ\x06", CLASS, CLASS, b"\0\0\0\0\0\x03", texts, &MARKER],
    )
}

// The place of the next text, and how many are left.
fn is_left(from: &Option<TextsLeft>, expected: Option<(u64, u64)>) -> bool {
    from.map(|left| (left.place, left.texts)) == expected
}

#[test]
fn reads_on_byte_by_byte(rt: HostRuntime) -> Result<(), Fail> {
    let bytes = header_of_texts(rt.alloc())?;
    assert!(rt; bytes.len() == 113);
    let ends = [
        (80, None),
        (82, Some((80, 6))),
        (83, Some((82, 5))),
        (87, Some((83, 4))),
        (91, Some((87, 3))),
        (95, Some((91, 2))),
        (97, Some((95, 1))),
        (113, Some((97, 0))),
    ];
    let mut from = None;
    let mut size = 0;
    for (end, expected) in ends {
        assert!(rt; end <= 113);
        while size < end {
            let found = read_header_on(&bytes[..size], &mut from);
            let is_short = found == Err(HeaderFault::Short);
            assert!(rt; is_short && is_left(&from, expected), "at {size}");
            size += 1;
        }
    }
    let head = HeaderRef {
        marker: MARKER,
        end: 113,
    };
    assert!(rt; read_header_on(&bytes, &mut from) == Ok(head));
    Ok(())
}
