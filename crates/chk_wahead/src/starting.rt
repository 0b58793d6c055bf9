//! The start of a writer's buffers: its process is started, and what an earlier run left is looked at.

ghost use Rattle.std.specs.Prelude.{◌≡◌, [], ◌∷◌};
ghost use Rattle.chk_site.specs.declared.acts.Call.TheVariants.{Start, Read, Size};
ghost use Rattle.chk_site.specs.Site.{OutsideCause, asked, bytes_given, sized};
ghost use Rattle.chk_site.specs.Runs.{MadeInTurn};
ghost use Rattle.chk_wahead.specs.Names.{next_name, buffer_name, mark_name};
ghost use Rattle.chk_wahead.specs.Telling.{Looks, TakenOnce};

use crate::found::{Found, small_of};
use chk_bytes::Bytes;
use chk_site::{Call, OutsideFault, Site, Who, done, size_of, taken};
use std::alloc::Global;

/// Starts the process, and looks at the number of its last buffer, the mark and the buffer.
pub(crate) fn look<S: Site>(
    alloc: Global,
    site: &mut S,
    who: &Who,
    next: &str,
    mark: &str,
    buffer: &str,
) -> Result<Found, OutsideFault>
    requires next { next.now ≡ next_name who.now.name }
    requires mark { mark.now ≡ mark_name who.now.name }
    requires buffer { buffer.now ≡ buffer_name who.now.name }
    ensures told { Looks who.now result (S.told site.old) (S.told site.new) }
    ensures cause { OutsideCause (S.fault_count site.old) (S.fault_count site.new) result }
{
    begin(alloc, site, who)?;
    let number = read(alloc, site, who, next)?;
    let length = read(alloc, site, who, mark)?;
    let size = size_of(alloc, site, who, buffer)?;
    Ok(Found {
        next: small_of(number),
        mark: small_of(length),
        size,
    })
}

fn begin<S: Site>(alloc: Global, site: &mut S, who: &Who) -> Result<(), OutsideFault>
    ensures told { MadeInTurn (asked who.now Start [] 0 0 ∷ []) result (S.told site.old) (S.told site.new) }
    ensures cause { OutsideCause (S.fault_count site.old) (S.fault_count site.new) result }
{
    let started = site.start(alloc, who);
    done(Call::Start, started)
}

// The first 9 bytes of a file, where it is there, so that it is seen whether they are 8.
fn read<S: Site>(
    alloc: Global,
    site: &mut S,
    who: &Who,
    name: &str,
) -> Result<Option<Bytes>, OutsideFault>
    ensures told { TakenOnce (asked who.now Read (name.now ∷ []) 0 9) bytes_given result (S.told site.old) (S.told site.new) }
    ensures cause { OutsideCause (S.fault_count site.old) (S.fault_count site.new) result }
{
    let given = site.read(alloc, who, name, 0, 9);
    taken(Call::Read, given)
}
