//! The tidying of the folder `joined`.

ghost use Rattle.std.specs.Prelude.{◌≡◌, ℕ, IsTrue, IfOk};
ghost use Rattle.chk_bytes.specs.Stems.{is_count};
ghost use Rattle.chk_site.specs.Site.{Adds, OutsideCause};
ghost use Rattle.chk_site.specs.Runs.{anyhow, Leads};
ghost use Rattle.chk_replace.specs.Replace.{LeavesFile};
ghost use Rattle.chk_world.specs.Books.{Book as Parts};
ghost use Rattle.chk_world.specs.Sight.{job};
ghost use Rattle.chk_world.proofs.Each.{Each};
ghost use Rattle.chk_book.specs.Books.{book_view};
ghost use Rattle.chk_join_sources.specs.Copying.{joined_segment};
ghost use Rattle.chk_join.specs.Cleaned.{Shown, Pending, GoneAtOk};
ghost use Rattle.chk_join.specs.Names.{IsStray, IsStrayNumber};
ghost use Rattle.chk_join.specs.Working.{Worked, TidiesBy, job_result};

use crate::names::strays;
use chk_book::Book;
use chk_bytes::Word;
use chk_site::{Call, OutsideFault, Site, Who, done, reached};
use std::alloc::Global;

/// Removes each segment of `joined` that its book doesn't name. It costs a call, and one for each of these segments.
pub(crate) fn tidy<S: Site>(
    alloc: Global,
    site: &mut S,
    who: &Who,
    book: &Book,
) -> Result<(), OutsideFault>
    requires { who.now ≡ job }
    ensures works { Adds (S.told site.old) (S.told site.new) (Worked (TidiesBy (book_view book.now)) (job_result result)) }
    ensures clean { (k : ℕ) → IsStrayNumber (book_view book.now) k → Adds (S.told site.old) (S.told site.new)
        (Leads (anyhow (LeavesFile (joined_segment k))) (λ history. Unit {0}) (GoneAtOk k result)) }
    ensures cause { OutsideCause (S.fault_count site.old) (S.fault_count site.new) result }
{
    let names = list_joined(alloc, site, who)?;
    let strays = strays(alloc, book, names.as_slice())?;
    remove_all(alloc, site, who, strays.as_slice())
}

/// The names of the files in `joined`. It costs one call.
fn list_joined<S: Site>(alloc: Global, site: &mut S, who: &Who) -> Result<Vec<Word>, OutsideFault>
    requires { who.now ≡ job }
    ensures works { (b : Parts) → Adds (S.told site.old) (S.told site.new) (Worked (TidiesBy b) (job_result result)) }
    ensures shown { IfOk result (λ names. (k : ℕ) → IsTrue (is_count k) → Adds (S.told site.old) (S.told site.new)
        (Leads (anyhow (LeavesFile (joined_segment k))) (λ history. Unit {0}) (Shown k names.items))) }
    ensures cause { OutsideCause (S.fault_count site.old) (S.fault_count site.new) result }
{
    let given = site.list(alloc, who, "joined");
    reached(Call::List, given)
}

/// Removes these files, in turn, whether or not they are there. It costs a call for each.
fn remove_all<S: Site>(
    alloc: Global,
    site: &mut S,
    who: &Who,
    names: &[Word],
) -> Result<(), OutsideFault>
    requires job { who.now ≡ job }
    ensures works { (b : Parts) → Each (IsStray b) names.now
        → Adds (S.told site.old) (S.told site.new) (Worked (TidiesBy b) (job_result result)) }
    ensures gone { (k : ℕ) → IsTrue (is_count k) → Adds (S.told site.old) (S.told site.new)
        (Leads (anyhow (LeavesFile (joined_segment k))) (Pending k names.now) (GoneAtOk k result)) }
    ensures cause { OutsideCause (S.fault_count site.old) (S.fault_count site.new) result }
{
    for name in names {
        done(Call::Remove, site.remove(alloc, who, name.as_str()))?;
    }
    Ok(())
}
