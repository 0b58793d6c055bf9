//! Lines that are put together before they are printed.

ghost use Rattle.std.specs.Prelude.{◌≡◌, ◌++◌, ◌∷◌, [], map, string_bytes, IsTrue, OnOk};
ghost use Rattle.chk_site.specs.Site.{OutsideCause};
ghost use Rattle.chk_world.specs.ArchiveRuns.{is_one_line};
ghost use Rattle.chk_cmd_output.specs.Printing.{PrintsInTurn};

use chk_bytes::NoMemory;
use chk_cmd_output::print_line;
use chk_site::{OutsideFault, Site, Who};
use std::alloc::Global;
use std::marker::Model;

/// Lines, each with its newline.
#[derive(Drop)]
pub(crate) struct Lines {
    items: Vec<String>,
}

impl Model for Lines {
    ghost use Rattle.std.specs.Prelude.{ℕ, List, map, string_bytes, All, IsTrue};
    ghost use Rattle.chk_world.specs.ArchiveRuns.{is_one_line};

    ghost Value = { List (List ℕ) };

    ghost view = { λ l. map string_bytes l.items.items };

    ghost invariant = { λ l. All (λ t. IsTrue (is_one_line (string_bytes t))) l.items.items };
}

impl Lines {
    /// No lines. It takes no memory before the first one comes.
    pub(crate) fn new(alloc: Global) -> Lines
        ensures { result ≡ [] }
    {
        Lines {
            items: Vec::new(alloc),
        }
    }

    /// Puts one behind the others.
    pub(crate) fn push(&mut self, line: String) -> Result<(), NoMemory>
        requires one { IsTrue (is_one_line (string_bytes line)) }
        ensures { OnOk result (self.new ≡ self.old ++ string_bytes line ∷ []) }
    {
        self.items.push(line)?;
        Ok(())
    }

    /// Prints them in turn. It costs a call for each.
    pub(crate) fn print<S: Site>(
        &self,
        alloc: Global,
        site: &mut S,
        who: &Who,
    ) -> Result<(), OutsideFault>
        ensures told { PrintsInTurn who.now self.now result (S.told site.old) (S.told site.new) }
        ensures cause { OutsideCause (S.fault_count site.old) (S.fault_count site.new) result }
    {
        for line in self.items.iter() {
            print_line(alloc, site, who, line.as_bytes())?;
        }
        Ok(())
    }
}
