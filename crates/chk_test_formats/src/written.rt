//! Numbers, keys and posts as they are written.
ghost use Rattle.std.specs.Prelude.{◌<◌, ◌^◌, IfOk, IsTrue};
ghost use Rattle.chk_chunk.specs.Keys.{is_chunk};
ghost use Rattle.chk_chunk.specs.Lent.{chunk_of};

use crate::texts::is_text;
use chk_bytes::{Bytes, Word, put_decimal, put_u16, put_u32, put_u64, put_vint};
use chk_chunk::{Chunk, post_size, write_key, write_post};
use std::alloc::Global;
use std::test::Fail;

// Numbers of Hadoop as it writes them, decimals, and numbers with the high byte first.
const NUMBERS: &str = "\
vint 0 %00
vint 34 %22
vint 127 %7F
vint 128 %8F%80
vint 200 %8F%c8
vint 256 %8E%01%00
vint 65536 %8D%01%00%00
vint 2147483647 %8C%7F%FF%FF%FF
decimal 0 0
decimal 18446744073709551615 18446744073709551615
two 258 %01%02
four 50595078 %03%04%05%06
eight 506664896818842894 %07%08%09%0A%0B%0C%0D%0E
";

fn puts_vint(out: &mut Bytes, number: u32) -> Result<(), Fail> {
    if number >= 1 << 31 {
        return Err(Fail::from("too large"));
    }
    Ok(put_vint(out, number)?)
}

fn puts(out: &mut Bytes, form: &str, number: &str) -> Result<(), Fail> {
    match form {
        "vint" => puts_vint(out, number.parse()?),
        "two" => Ok(put_u16(out, number.parse()?)?),
        "four" => Ok(put_u32(out, number.parse()?)?),
        "eight" => Ok(put_u64(out, number.parse()?)?),
        _ => Ok(put_decimal(out, number.parse()?)?),
    }
}

fn is_put_so(alloc: Global, row: &str) -> Result<(), Fail> {
    let (form, rest) = row.split_once(' ').ok_or("no number")?;
    let (number, spelled) = rest.split_once(' ').ok_or("no bytes")?;
    let mut out = Bytes::new(alloc);
    puts(&mut out, form, number)?;
    is_text(alloc, out.as_slice(), spelled)
}

#[test]
fn numbers(rt: HostRuntime) -> Result<(), Fail> {
    for row in NUMBERS.lines() {
        is_put_so(rt.alloc(), row)?;
    }
    Ok(())
}

fn sample(alloc: Global, start: u64, cluster: &[u8]) -> Result<Chunk, Fail>
    requires { start < 2 ^ 32 }
    ensures { IfOk result (λ chunk. IsTrue (is_chunk (chunk_of chunk))) }
{
    let source = Word::new(alloc, b"h1")?;
    let kind = Word::new(alloc, b"Log")?;
    let name = Word::new(alloc, b"/a.log")?;
    let cluster = Word::new(alloc, cluster)?;
    let body = Bytes::from_slice(alloc, b"hello\n")?;
    Ok(Chunk {
        source,
        kind,
        name,
        start,
        cluster,
        seq: start + 6,
        body,
    })
}

// The key of the chunk `hello\n` with this start and cluster.
fn is_spelled(alloc: Global, start: u64, cluster: &[u8], spelled: &str) -> Result<(), Fail>
    requires { start < 2 ^ 32 }
{
    let chunk = sample(alloc, start, cluster)?;
    let mut out = Bytes::new(alloc);
    write_key(&mut out, &chunk.lend())?;
    is_text(alloc, out.as_slice(), spelled)
}

#[test]
fn keys(rt: HostRuntime) -> Result<(), Fail> {
    is_spelled(
        rt.alloc(),
        0,
        b"none",
        "%01%ZZ%00%06%00%02h1%00%03Log%00%06/a.log",
    )?;
    is_spelled(
        rt.alloc(),
        5,
        b"demo",
        "%02%ZZ%00%0B%ZZ%00%05%00%02h1%00%03Log%00%06/a.log%00%04demo",
    )
}

// The post of that chunk: 44 bytes.
const POST: &str =
    "%00%00%00%01%00%00%00%1A%01%ZZ%00%06%00%02h1%00%03Log%00%06/a.log%00%00%00%06hello%0A";

#[test]
fn a_post(rt: HostRuntime) -> Result<(), Fail> {
    let chunks = [sample(rt.alloc(), 0, b"none")?];
    assert!(rt; post_size(&chunks) == 44);
    let post = write_post(rt.alloc(), &chunks)?;
    is_text(rt.alloc(), post.as_slice(), POST)
}
