//! One stream: the digest of its archive beside its log, and where the two part.

ghost use Rattle.std.specs.Prelude.{◌≡◌, ◌&&◌, bytes_eq, true, IfErr, IsTrue};
ghost use Rattle.chk_world.specs.ArchiveRuns.{is_one_line};
ghost use Rattle.chk_site.specs.Site.{OutsideCause};
ghost use Rattle.chk_world.specs.Sight.{job};
ghost use Rattle.chk_record_index.specs.Faults.{IsOfRead, JobCause};
ghost use Rattle.chk_ctl_sum.specs.Rests.{end_of};
ghost use Rattle.chk_ctl_audit.specs.Streams.{has_all, is_same, parts_of, place_in, AuditedStream};
ghost use Rattle.chk_ctl_audit.specs.Streams.{Audits, FindsParts, PartedStream, SaysLine};
ghost use Rattle.chk_ctl_audit.specs.Streams.{ToldStream};

use crate::lines::{audit_line, differs};
use chk_cmd_output::print_line;
use chk_ctl_audit_log::{LogSum, Met, meet_log, sum_log};
use chk_ctl_sum::Rest;
use chk_join_sources::Side;
use chk_record_index::JobFault;
use chk_site::{OutsideFault, Site, Who};
use std::alloc::Global;

/// Audits each stream that has a digest, in turn. Says whether all are the same.
pub(crate) fn audit_each<S: Site>(
    alloc: Global,
    site: &mut S,
    who: &Who,
    side: &Side<'_>,
    rests: &[Rest<'_>],
    digests: &[[u8; 32]],
) -> Result<bool, JobFault>
    requires job { who.now ≡ job }
    ensures told { Audits side.now result rests.now digests.now true (S.told site.old)
        (S.told site.new) }
    ensures only { IfErr result IsOfRead }
    ensures cause { JobCause (S.fault_count site.old) (S.fault_count site.new) result }
{
    let mut same = true;
    let mut next = 0;
    let count = rests.len().min(digests.len());
    for index in 0..count {
        match audit_stream(
            alloc,
            site,
            who,
            side,
            &mut next,
            &rests[index],
            &digests[index],
        ) {
            Ok(one) => same = both(same, one),
            Err(fault) => return Err(fault),
        }
    }
    Ok(same)
}

fn both(one: bool, other: bool) -> bool
    ensures { result ≡ one && other }
{
    one && other
}

/// Reads the stream's log from where it begins, or from the stream's start on, up to its archive's
/// end, and where that isn't the same, once more beside the archive; and prints the line of what
/// was found. Says whether the log has all that the archive has, with this digest.
fn audit_stream<S: Site>(
    alloc: Global,
    site: &mut S,
    who: &Who,
    side: &Side<'_>,
    next: &mut usize,
    rest: &Rest<'_>,
    digest: &[u8; 32],
) -> Result<bool, JobFault>
    requires job { who.now ≡ job }
    ensures told { AuditedStream side.now rest.now digest.now result (S.told site.old)
        (S.told site.new) }
    ensures only { IfErr result IsOfRead }
    ensures cause { JobCause (S.fault_count site.old) (S.fault_count site.new) result }
{
    let end = rest.end;
    match sum_log(alloc, site, who, &end.name, rest.begin, end.start, end.end) {
        Ok(found) => part_stream(alloc, site, who, side, next, rest, digest, &found),
        Err(fault) => Err(JobFault::from(fault)),
    }
}

/// Looks where they part, and prints the line.
fn part_stream<S: Site>(
    alloc: Global,
    site: &mut S,
    who: &Who,
    side: &Side<'_>,
    next: &mut usize,
    rest: &Rest<'_>,
    digest: &[u8; 32],
    found: &LogSum,
) -> Result<bool, JobFault>
    requires job { who.now ≡ job }
    ensures told { PartedStream side.now rest.now digest.now found.now result (S.told site.old)
        (S.told site.new) }
    ensures only { IfErr result IsOfRead }
    ensures cause { JobCause (S.fault_count site.old) (S.fault_count site.new) result }
{
    match find_parts(alloc, site, who, side, next, rest, has_all(digest, found)) {
        Ok(parts) => match tell_stream(alloc, site, who, rest, digest, found, parts) {
            Ok(same) => Ok(same),
            Err(fault) => Err(JobFault::from(fault)),
        },
        Err(fault) => Err(fault),
    }
}

/// The offset of the first byte of the stream's archive, from where the log begins on, that the log
/// doesn't have, as both are read now; none where they are the same, or where a second reading
/// finds no such byte, or an archive that isn't the same one any more.
fn find_parts<S: Site>(
    alloc: Global,
    site: &mut S,
    who: &Who,
    side: &Side<'_>,
    next: &mut usize,
    rest: &Rest<'_>,
    same: bool,
) -> Result<Option<u64>, JobFault>
    requires job { who.now ≡ job }
    ensures told { FindsParts same side.now rest.now result (S.told site.old) (S.told site.new) }
    ensures only { IfErr result IsOfRead }
    ensures cause { JobCause (S.fault_count site.old) (S.fault_count site.new) result }
{
    if same {
        return Ok(None);
    }
    let given = meet_log(alloc, site, who, side, next, rest);
    parts_of(given)
}

/// The offset at which they part; none where the archive isn't the same one any more.
fn parts_of(given: Result<Met, JobFault>) -> Result<Option<u64>, JobFault>
    ensures { result ≡ parts_of given }
{
    match given {
        Ok(met) => Ok(place_in(met)),
        Err(JobFault::Damaged { .. }) => Ok(None),
        Err(fault) => Err(fault),
    }
}

/// The offset at which they part.
fn place_in(met: Met) -> Option<u64>
    ensures { result ≡ place_in met }
{
    match met {
        Met::All => None,
        Met::Differs(at) | Met::Ends(at) => Some(at),
    }
}

/// Prints the line of what was found.
fn tell_stream<S: Site>(
    alloc: Global,
    site: &mut S,
    who: &Who,
    rest: &Rest<'_>,
    digest: &[u8; 32],
    found: &LogSum,
    parts: Option<u64>,
) -> Result<bool, OutsideFault>
    requires job { who.now ≡ job }
    ensures told { ToldStream rest.now digest.now found.now parts result (S.told site.old)
        (S.told site.new) }
    ensures cause { OutsideCause (S.fault_count site.old) (S.fault_count site.new) result }
{
    let words = differs(alloc, parts)?;
    let line = audit_line(alloc, rest, digest, found, words.as_str())?;
    say_line(
        alloc,
        site,
        who,
        line.as_bytes(),
        is_same(rest, digest, found),
    )
}

/// Prints the line, and answers this.
fn say_line<S: Site>(
    alloc: Global,
    site: &mut S,
    who: &Who,
    line: &[u8],
    same: bool,
) -> Result<bool, OutsideFault>
    requires job { who.now ≡ job }
    requires line { IsTrue (is_one_line line.now) }
    ensures told { SaysLine line.now same result (S.told site.old) (S.told site.new) }
    ensures cause { OutsideCause (S.fault_count site.old) (S.fault_count site.new) result }
{
    match print_line(alloc, site, who, line) {
        Ok(()) => Ok(same),
        Err(fault) => Err(fault),
    }
}

/// The log has all that the archive has, to the byte.
fn is_same(rest: &Rest<'_>, digest: &[u8; 32], found: &LogSum) -> bool
    ensures { result ≡ is_same (end_of rest.now) rest.now.begin digest.now found.now }
{
    match found {
        LogSum::Whole(log) => {
            are_equal(log.as_slice(), digest.as_slice()) && rest.begin <= rest.end.start
        }
        LogSum::Ends(_) => false,
    }
}

/// From where it begins on, the log has all that the archive has.
fn has_all(digest: &[u8; 32], found: &LogSum) -> bool
    ensures { result ≡ has_all digest.now found.now }
{
    match found {
        LogSum::Whole(log) => are_equal(log.as_slice(), digest.as_slice()),
        LogSum::Ends(_) => false,
    }
}

pub(crate) fn are_equal(one: &[u8], other: &[u8]) -> bool
    ensures { result ≡ bytes_eq one.now other.now }
{
    one == other
}
