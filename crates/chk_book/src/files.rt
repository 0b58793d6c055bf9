//! The calls that write a segment's file.

ghost use Rattle.chk_site.specs.Site.{OutsideCause};
ghost use Rattle.chk_site.specs.Runs.{MadeInTurn};
ghost use Rattle.chk_seqfile.specs.Headers.{marker_of, header};
ghost use Rattle.chk_book.specs.Folders.{segment_name, segment_stem};
ghost use Rattle.chk_book.specs.Storing.{beginning, appending, ending};

use crate::names;
use chk_seqfile::header;
use chk_site::{Call, OutsideFault, Site, Who, done};
use std::alloc::Global;

/// Makes the file of a folder's segment anew, and appends its header.
pub(crate) fn begin_segment_file<S: Site>(
    alloc: Global,
    site: &mut S,
    who: &Who,
    folder: &str,
    number: u64,
) -> Result<(), OutsideFault>
    ensures told { MadeInTurn (beginning who.now (segment_name folder.now number) (header (marker_of (segment_stem number)))) result
        (S.told site.old) (S.told site.new) }
    ensures cause { OutsideCause (S.fault_count site.old) (S.fault_count site.new) result }
{
    let stem = names::segment_stem(alloc, number)?;
    let head = header(alloc, stem.as_str())?;
    let name = names::segment_name(alloc, folder, number)?;
    begin_file(alloc, site, who, name.as_str(), head.as_slice())
}

/// Makes the file anew and appends its header.
fn begin_file<S: Site>(
    alloc: Global,
    site: &mut S,
    who: &Who,
    name: &str,
    header: &[u8],
) -> Result<(), OutsideFault>
    ensures told { MadeInTurn (beginning who.now name.now header.now) result (S.told site.old) (S.told site.new) }
    ensures cause { OutsideCause (S.fault_count site.old) (S.fault_count site.new) result }
{
    let removed = site.remove(alloc, who, name);
    done(Call::Remove, removed)?;
    let created = site.create(alloc, who, name);
    done(Call::Create, created)?;
    append_to(alloc, site, who, name, header)
}

/// Appends bytes to the file.
pub(crate) fn append_to<S: Site>(
    alloc: Global,
    site: &mut S,
    who: &Who,
    name: &str,
    bytes: &[u8],
) -> Result<(), OutsideFault>
    ensures told { MadeInTurn (appending who.now name.now bytes.now) result (S.told site.old) (S.told site.new) }
    ensures cause { OutsideCause (S.fault_count site.old) (S.fault_count site.new) result }
{
    let appended = site.append(alloc, who, name, bytes);
    done(Call::Append, appended)
}

/// Appends the last bytes, and syncs the file.
pub(crate) fn finish_file<S: Site>(
    alloc: Global,
    site: &mut S,
    who: &Who,
    name: &str,
    bytes: &[u8],
) -> Result<(), OutsideFault>
    ensures told { MadeInTurn (ending who.now name.now bytes.now) result (S.told site.old) (S.told site.new) }
    ensures cause { OutsideCause (S.fault_count site.old) (S.fault_count site.new) result }
{
    let appended = site.append(alloc, who, name, bytes);
    done(Call::Append, appended)?;
    let synced = site.sync(alloc, who, name);
    done(Call::Sync, synced)
}
