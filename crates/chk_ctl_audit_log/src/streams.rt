//! The archive of a stream compared with its log.

ghost use Rattle.std.specs.Prelude.{◌≡◌, [], ◌+◌, ◌-◌, false, IfErr, IfOk, Option};
ghost use Rattle.chk_site.specs.History.{Every, History};
ghost use Rattle.chk_site.specs.Site.{Adds};
ghost use Rattle.chk_world.specs.JobSteps.{IsOf};
ghost use Rattle.chk_world.specs.Sight.{job};
ghost use Rattle.chk_record_index.specs.Faults.{JobCause, IsOfRead};
ghost use Rattle.chk_ctl_audit_log.specs.Ahead.{LogAt};
ghost use Rattle.chk_ctl_audit_log.specs.Records.{ReadsBeside};
ghost use Rattle.chk_ctl_audit_log.specs.Streams.{log_of, IsBegun, StreamMet};

use crate::ahead::Ahead;
use crate::comparing::Met;
use crate::records::compare_block;
use chk_bytes::{Bytes, NoMemory};
use chk_ctl_sum::Rest;
use chk_join_sources::{Side, block_of};
use chk_record_index::JobFault;
use chk_record_reader::RecordReader;
use chk_rotate::{Place, RotTail};
use chk_site::{Site, Who};
use std::alloc::Global;

/// Where the archive of the stream and its log part, from where the log begins or from the
/// stream's start on. The stream's heads are looked for from `next` on, which then stands behind
/// them, so that streams in order cost one pass over the heads.
///
/// It reads the archive and the log side by side, and holds a piece of each, 131,072 bytes of the
/// log and at most 1,048,576 of the archive.
pub fn meet_log<S: Site>(
    alloc: Global,
    site: &mut S,
    who: &Who,
    side: &Side<'_>,
    next: &mut usize,
    rest: &Rest<'_>,
) -> Result<Met, JobFault>
    requires job { who.now ≡ job }
    ensures told { StreamMet who.now side.now rest.now result (S.told site.old)
        (S.told site.new) }
    ensures own { Adds (S.told site.old) (S.told site.new)
        (Every (IsOf (ReadsBeside rest.now.end.now.name))) }
    ensures only { IfErr result IsOfRead }
    ensures cause { JobCause (S.fault_count site.old) (S.fault_count site.new) result }
{
    match ahead_of(alloc, rest) {
        Ok(mut log) => {
            let block = block_of(side.heads, rest.end, next);
            let mut reader = RecordReader::new(alloc);
            compare_block(
                alloc,
                site,
                who,
                side,
                &mut reader,
                &mut log,
                block,
                rest.skip(),
            )
        }
        Err(NoMemory) => Err(JobFault::NoMemory),
    }
}

/// The stream's log, of which nothing is read.
fn ahead_of(alloc: Global, rest: &Rest<'_>) -> Result<Ahead, NoMemory>
    ensures { IfOk result (IsBegun rest.now) }
{
    let place = Place {
        after: None,
        first: rest.begin,
        offset: rest.begin.max(rest.end.start),
    };
    Ok(Ahead {
        reader: RotTail::new(alloc, rest.end.name.copy()?, false, place)?,
        bytes: Bytes::new(alloc),
        used: 0,
    })
}
