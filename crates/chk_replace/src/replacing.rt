// A file is replaced whole.
ghost use Rattle.std.specs.Prelude.{◌≡◌, IfOk, string_bytes};
ghost use Rattle.chk_site.specs.History.{History, Every};
ghost use Rattle.chk_site.specs.Site.{Adds, LastFailed, OutsideCause};
ghost use Rattle.chk_site.specs.Runs.{MadeInTurn};
ghost use Rattle.chk_replace.specs.Replace.{tmp, replacement, ReplacesWhole, SparesOld, TouchesBoth};

use chk_bytes::NoMemory;
use chk_site::{Call, OutsideFault, Site, Who, done};
use std::alloc::Global;

/// Replaces the file `name` by one with these bytes, all of them on the disk. The next content is written to `<name>.tmp`,
/// synced, and renamed. After a refusal the file is the old one or the new one, and `<name>.tmp` may be left; the next
/// replacement removes it. Without memory it is the old one. It costs five calls, and memory for the longer name.
pub fn replace<S: Site>(
    alloc: Global,
    site: &mut S,
    who: &Who,
    name: &str,
    bytes: &[u8],
) -> Result<(), OutsideFault>
    ensures told { MadeInTurn (replacement who.now name.now bytes.now) result (S.told site.old) (S.told site.new) }
    ensures old_or_new { Adds (S.told site.old) (S.told site.new) (ReplacesWhole name.now bytes.now result) }
    ensures own { Adds (S.told site.old) (S.told site.new) (Every (TouchesBoth who.now name.now)) }
    ensures unmade { Adds (S.told site.old) (S.told site.new) (Every (SparesOld result name.now)) }
    ensures last { Adds (S.told site.old) (S.told site.new) (LastFailed result) }
    ensures cause { OutsideCause (S.fault_count site.old) (S.fault_count site.new) result }
{
    let next = tmp_name(alloc, name)?;
    replace_by(alloc, site, who, name, bytes, next.as_str())
}

fn tmp_name(alloc: Global, name: &str) -> Result<String, NoMemory>
    ensures { IfOk result (λ text. string_bytes text ≡ tmp name.now) }
{
    let mut text = String::from_str(alloc, name)?;
    text.push_str(".tmp")?;
    Ok(text)
}

// The calls of a replacement, by this name of the next content.
fn replace_by<S: Site>(
    alloc: Global,
    site: &mut S,
    who: &Who,
    name: &str,
    bytes: &[u8],
    next: &str,
) -> Result<(), OutsideFault>
    requires next { next.now ≡ tmp name.now }
    ensures told { MadeInTurn (replacement who.now name.now bytes.now) result (S.told site.old) (S.told site.new) }
    ensures unmade { Adds (S.told site.old) (S.told site.new) (Every (SparesOld result name.now)) }
    ensures cause { OutsideCause (S.fault_count site.old) (S.fault_count site.new) result }
{
    let removed = site.remove(alloc, who, next);
    done(Call::Remove, removed)?;
    let created = site.create(alloc, who, next);
    done(Call::Create, created)?;
    let appended = site.append(alloc, who, next, bytes);
    done(Call::Append, appended)?;
    let synced = site.sync(alloc, who, next);
    done(Call::Sync, synced)?;
    let renamed = site.rename(alloc, who, next, name);
    done(Call::Rename, renamed)
}
