//! Files of sinks and of an archive, and the calls of the archive job on them.
use crate::calls::answer;
use crate::files::{md5_text, reads_text};
use crate::job::SINK;
use crate::turns::sink_of_turns;
use chk_site::{Call, Other};
use chk_test_calls::{collector, written};
use chk_test_engine::{Outside, Parts, Scene, add_file, plain};
use std::alloc::Global;
use std::test::Fail;

/// Files of sinks and of an archive.
#[derive(Drop)]
pub struct ArchiveScene {
    outside: Outside,
}

// The collector c1 syncs the sink before the call of this number.
fn sync_before(alloc: Global, at: u64) -> Result<Other, Fail> {
    let mut other = written(alloc, Call::Sync, &[SINK.as_bytes()])?;
    other.before = at;
    other.act.who = collector(alloc)?;
    Ok(other)
}

// - `turns HOSTS COUNT`: adds the sink, with so many records of each of these streams, which take turns.
// - `syncs AT`: the collector c1 syncs the sink before that call.
// - `reads NAME`: how many reads of this file there were, and how many bytes they gave.
// - `md5 NAME`: the MD5 of this file.
fn about_files(
    outside: &mut Outside,
    parts: &Parts,
    verb: &str,
    text: &str,
) -> Result<Option<String>, Fail> {
    let alloc = outside.alloc;
    match verb {
        "turns" => {
            let bytes = sink_of_turns(alloc, parts, text)?;
            add_file(alloc, &mut outside.next, SINK, bytes.as_slice(), true)?;
            Ok(Some(plain(alloc, "done")?))
        }
        "syncs" => {
            outside
                .next
                .others
                .push(sync_before(alloc, text.parse()?)?)?;
            Ok(Some(plain(alloc, "done")?))
        }
        "reads" => Ok(Some(reads_text(alloc, outside.site.acts(), text)?)),
        "md5" => Ok(Some(md5_text(alloc, &outside.site, text)?)),
        _ => Ok(None),
    }
}

impl Scene for ArchiveScene {
    fn empty(alloc: Global) -> Result<Box<Self>, Fail> {
        let outside = Outside::new(alloc)?;
        Ok(Box::new(alloc, ArchiveScene { outside })?)
    }

    fn outside(&mut self) -> &mut Outside {
        &mut self.outside
    }

    fn step(&mut self, parts: &Parts, verb: &str, text: &str) -> Result<Option<String>, Fail> {
        match verb {
            "run"
            | "book"
            | "end"
            | "archive"
            | "heads"
            | "part"
            | "aside"
            | "begins"
            | "publishes" => {
                self.outside.begin();
                Ok(Some(answer(self.outside.alloc, &mut self.outside.site, verb, text)?))
            }
            _ => about_files(&mut self.outside, parts, verb, text),
        }
    }
}
