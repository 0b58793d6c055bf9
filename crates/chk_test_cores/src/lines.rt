//! Printed lines, as they are written out.

use chk_bytes::{Bytes, NoMemory, Stem, Word};
use chk_cmd_line::{
    Ending, LoadLines, Usage, load_log, put_archive, put_demux, put_end, put_load, put_stream,
    put_usage,
};
use chk_site::Call;
use std::alloc::Global;

#[test]
fn reports(rt: HostRuntime) -> Result<(), NoMemory> {
    let mut out = Bytes::new(rt.alloc());
    put_stream(&mut out, "h1", "Log", "/a.log", 6)?;
    put_archive(&mut out, 1, 2, 3, 4)?;
    put_end(&mut out, "h1", "Log", "/a.log", 10)?;
    put_demux(&mut out, 441, 6, 141)?;
    put_load(&mut out, 2, 15, 30)?;
    let wanted = "stream h1 Log /a.log 6\n\
        archive unclosed 1 taken 2 held 3 removed 4\n\
        end h1 Log /a.log 10\n\
        demux taken 441 entries 6 left 141\n\
        load lines 2 bytes 15 archived 30\n";
    assert_eq!(rt; out.as_slice(), wanted.as_bytes());
    Ok(())
}

#[test]
fn usage_lines(rt: HostRuntime) -> Result<(), NoMemory> {
    for (usage, wanted) in [
        (
            Usage::Commands,
            "usage: chukwa round|agent|collector|drain|archive|demux|salvage|load|udp|subscribe|join\n",
        ),
        (
            Usage::Round,
            "usage: chukwa round [--class CLASS] [--reads N] [--cluster NAME] SOURCE TYPE LOG...\n",
        ),
        (
            Usage::Agent,
            "usage: chukwa agent [--initial FILE] [--control ADDRESS] [--turns N] [--poll MS] [--expire MS] [--cluster NAME] SOURCE COLLECTOR...\n",
        ),
        (
            Usage::Collector,
            "usage: chukwa collector [--rotate MS] [--turns N] [--tee FILE] NAME ADDRESS\n",
        ),
        (
            Usage::Drain,
            "usage: chukwa drain [--initial FILE] [--reads N] [--polls N] [--cluster NAME] SOURCE COLLECTOR...\n",
        ),
        (Usage::Archive, "usage: chukwa archive\n"),
        (Usage::Demux, "usage: chukwa demux [TYPE...]\n"),
        (Usage::Salvage, "usage: chukwa salvage FILE\n"),
        (Usage::Load, "usage: chukwa load N\n"),
        (
            Usage::Subscribe,
            "usage: chukwa subscribe [--turns N] ADDRESS\n",
        ),
        (Usage::Join, "usage: chukwa join LEFT RIGHT\n"),
    ] {
        let mut out = Bytes::new(rt.alloc());
        put_usage(&mut out, usage)?;
        assert_eq!(rt; out.as_slice(), wanted.as_bytes());
    }
    Ok(())
}

// A word; a text that is none is told as want of memory.
fn word(alloc: Global, text: &str) -> Result<Word, NoMemory> {
    Word::new(alloc, text.as_bytes()).map_err(|_| NoMemory)
}

// Whether an ending has this status and this line.
fn ends(alloc: Global, ending: &Ending, status: u8, line: &str) -> Result<bool, NoMemory> {
    let mut out = Bytes::new(alloc);
    ending.put_line(&mut out)?;
    Ok(out.as_slice() == line.as_bytes() && ending.status() == status)
}

#[test]
fn endings_by_number(rt: HostRuntime) -> Result<(), NoMemory> {
    let number = 9_223_372_036_854_775_807;
    let call = Call::LogRead;
    for (ending, status, line) in [
        (Ending::Outside { call }, 3, "outside logread\n"),
        (Ending::NoMemory, 4, "out of memory\n"),
        (Ending::Spent { number }, 8, "spent 9223372036854775807\n"),
        (Ending::Refused { code: 503 }, 9, "refused 503\n"),
    ] {
        assert!(rt; ends(rt.alloc(), &ending, status, line)?, "{line}");
    }
    Ok(())
}

#[test]
fn endings_by_name(rt: HostRuntime) -> Result<(), NoMemory> {
    let name = word(rt.alloc(), "agents/h1.check")?;
    let path = word(rt.alloc(), "/a.log")?;
    let other = word(rt.alloc(), "/b.log")?;
    let unclosed = word(rt.alloc(), "c2.1.1.chukwa")?;
    let shrank = Ending::Shrank {
        path,
        had: 6,
        is: 3,
    };
    for (ending, status, line) in [
        (
            Ending::Damaged { name, at: 0 },
            5,
            "damaged agents/h1.check 0\n",
        ),
        (shrank, 7, "shrank /a.log 6 3\n"),
        (
            Ending::Growing {
                path: other,
                reads: 1,
            },
            6,
            "pending growing /b.log 1\n",
        ),
        (
            Ending::Unclosed { name: unclosed },
            6,
            "pending unclosed c2.1.1.chukwa\n",
        ),
    ] {
        assert!(rt; ends(rt.alloc(), &ending, status, line)?, "{line}");
    }
    Ok(())
}

#[test]
fn an_ending_by_stream(rt: HostRuntime) -> Result<(), NoMemory> {
    let differ = Ending::Differ {
        source: word(rt.alloc(), "h1")?,
        kind: word(rt.alloc(), "Log")?,
        name: word(rt.alloc(), "/a.log")?,
        at: 4,
    };
    let line = "differ h1 Log /a.log 4\n";
    assert!(rt; ends(rt.alloc(), &differ, 11, line)?, "{line}");
    Ok(())
}

#[test]
fn an_ending_by_stem(rt: HostRuntime) -> Result<(), NoMemory> {
    let Some(stem) = Stem::new("c1", 1, 1) else {
        panic!(rt; "c1.1.1");
    };
    let length = Ending::Length {
        stem,
        got: 0,
        want: 144,
    };
    assert!(rt; ends(rt.alloc(), &length, 6, "pending length c1.1.1 0 144\n")?);
    Ok(())
}

#[test]
fn lines_of_a_small_load(rt: HostRuntime) -> Result<(), NoMemory> {
    let mut lines = LoadLines::new(2);
    let mut out = Bytes::new(rt.alloc());
    assert!(rt; lines.put_next(&mut out)?);
    assert!(rt; lines.put_next(&mut out)?);
    assert!(rt; !lines.put_next(&mut out)?);
    assert_eq!(rt; out.as_slice(), b"0 2\n1 59559187\n".as_slice());
    for (line, log) in [
        (0, "load.0.log"),
        (1, "load.1.log"),
        (2, "load.2.log"),
        (3, "load.0.log"),
    ] {
        assert_eq!(rt; load_log(line), log);
    }
    Ok(())
}

// The largest load has these bytes in its three logs.
#[test]
fn sizes_of_the_largest_load(rt: HostRuntime) -> Result<(), NoMemory> {
    let mut lines = LoadLines::new(200_000);
    let mut sizes = [0_usize; 3];
    for line in 0..200_000_u64 {
        let mut out = Bytes::new(rt.alloc());
        assert!(rt; lines.line() == line && lines.put_next(&mut out)?);
        let log = (line % 3) as usize;
        sizes[log] = sizes[log].saturating_add(out.len());
    }
    assert!(rt; sizes == [1_128_471, 1_128_227, 1_128_339]);
    Ok(())
}
