//! The questions for a sink's committed length.

ghost use Rattle.std.specs.Prelude.{◌≡◌, ℕ, ◌∷◌, [], List, IfOk, IfErr, IsTrue};
ghost use Rattle.chk_bytes.specs.Stems.{Stem as Parts, is_stem};
ghost use Rattle.chk_http_grammar.specs.Messages.{Ack};
ghost use Rattle.chk_site.specs.declared.acts.Call.TheVariants.{Size, Read};
ghost use Rattle.chk_site.specs.Site.{Adds, OutsideCause, asked, bytes_given, sized};
ghost use Rattle.chk_site.specs.History.{History};
ghost use Rattle.chk_site.specs.Runs.{Leads};
ghost use Rattle.chk_world.specs.Collectors.{Handling};
ghost use Rattle.chk_world.specs.Places.{As};
ghost use Rattle.chk_sink.specs.States.{State, process};
ghost use Rattle.chk_world.specs.Works.{Works};
ghost use Rattle.chk_sink.specs.Faults.{SinkCause, ended_by};
ghost use Rattle.chk_sink.specs.Works.{OfQuestion};
ghost use Rattle.chk_sink.specs.Damage.{DamageCause};
ghost use Rattle.chk_sink.specs.Asked.{CountedOn, ExactSince, IsOfQuestion};
ghost use Rattle.chk_sink.specs.Asking.{TakenOnce, IsMarkNumber, IsAsker, CountedOpen, OpenSince};
ghost use Rattle.chk_sink.specs.Least.{ReadsMark};

use crate::numbers::{LEAST_MARK, damaged, number_from};
use crate::{SinkFault, names};
use chk_bytes::{Bytes, Stem};
use chk_site::{Call, OutsideFault, Site, Who, taken};
use std::alloc::Global;

/// The bytes of the file of this name, where it is there: the first 9, so that it is seen whether they are 8.
pub(crate) fn bytes_of<S: Site>(
    alloc: Global,
    site: &mut S,
    who: &Who,
    name: &str,
) -> Result<Option<Bytes>, OutsideFault>
    ensures told { TakenOnce (asked who.now Read (name.now ∷ []) 0 9) bytes_given result (S.told site.old) (S.told site.new) }
    ensures cause { OutsideCause (S.fault_count site.old) (S.fault_count site.new) result }
{
    let given = site.read(alloc, who, name, 0, 9);
    taken(Call::Read, given)
}

/// What the type of a stem keeps: its name and its numbers are good.
pub(crate) fn stem_is_good(stem: &Stem)
    ensures { IsTrue (is_stem stem.now) }
{
    let _ = stem.number();
}

// The number in the mark of this name, of which these bytes were read.
fn number_of(alloc: Global, name: &str, bytes: &[u8]) -> Result<u64, SinkFault>
    ensures { IsMarkNumber name.now bytes.now result }
{
    match number_from(bytes, LEAST_MARK) {
        Some(number) => Ok(number),
        None => Err(damaged(alloc, name)),
    }
}

/// The number in the mark of a sink that isn't done, 0 where it has none.
pub(crate) fn marked<S: Site>(
    alloc: Global,
    site: &mut S,
    who: &Who,
    stem: &Stem,
) -> Result<u64, SinkFault>
    requires { IsTrue (is_stem stem.now) }
    ensures told { (stamped : List (List ℕ)) (s : State) (handled : List Handling) (t : ℕ) (stems : List Parts)
        (acks : List Ack) → IsAsker who.now s → Adds (S.told site.old) (S.told site.new)
        (Leads (As stamped (process s)) (CountedOpen stamped s handled t stems acks stem.now)
        (CountedOn stamped s handled t stems acks stem.now result)) }
    ensures exact { IfOk result (λ n. (stamped : List (List ℕ)) (s : State) (earlier : History) → IsAsker who.now s
        → Adds (S.told site.old) (S.told site.new) (Leads (As stamped (process s))
        (OpenSince stamped s earlier stem.now) (ExactSince stamped s earlier stem.now n))) }
    ensures reads { IfOk result (λ n. Adds (S.told site.old) (S.told site.new) (ReadsMark stem.now n)) }
    ensures own { Works who.now (OfQuestion stem.now) (ended_by result) (S.told site.old) (S.told site.new) }
    ensures only { IfErr result IsOfQuestion }
    ensures damaged { Adds (S.told site.old) (S.told site.new) (DamageCause result) }
    ensures cause { SinkCause (S.fault_count site.old) (S.fault_count site.new) result }
{
    let name = names::mark(alloc, stem)?;
    let read = bytes_of(alloc, site, who, name.as_str())?;
    match read {
        Some(bytes) => number_of(alloc, name.as_str(), bytes.as_slice()),
        None => Ok(0),
    }
}
