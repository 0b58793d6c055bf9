//! The table of names.

ghost use Rattle.std.specs.Prelude.{◌≡◌, ◌<◌, ◌≤◌, ◌+◌, ℕ, List, true};
ghost use Rattle.std.specs.String.{string_bytes};
ghost use Rattle.std.specs.HashMap.{get_by_text};
ghost use Rattle.indexmap.specs.IndexMap.{spare};
ghost use Rattle.chk_agent_table.specs.Fields.{noted, without};

use crate::hashing::Hashing;
use indexmap::IndexMap;

/// The number under each name.
pub(crate) type Names = IndexMap<String, u32, Hashing>;

/// Puts the number under the name of a live adaptor. There is room for one more.
pub(crate) fn note(names: &mut Names, live: bool, name: String, number: u32)
    requires { 0 < spare names.old }
    ensures found { (text : List ℕ) → get_by_text names.new text
        ≡ noted live (string_bytes name) number (get_by_text names.old) text }
    ensures spare { spare names.old ≤ spare names.new + 1 }
{
    if live {
        put(names, name, number);
    }
}

// Puts the number under the name.
fn put(names: &mut Names, name: String, number: u32)
    requires { 0 < spare names.old }
    ensures found { (text : List ℕ) → get_by_text names.new text
        ≡ noted true (string_bytes name) number (get_by_text names.old) text }
    ensures spare { spare names.old ≤ spare names.new + 1 }
{
    match names.insert(name, number) {
        Ok(_) => {}
        Err(_) => unreachable!(),
    }
}

/// Takes the name out, where the number stands under it.
pub(crate) fn forget(names: &mut Names, name: &str, number: u32)
    ensures found { (text : List ℕ) → get_by_text names.new text
        ≡ without name.now number text (get_by_text names.old text) }
    ensures spare { spare names.old ≤ spare names.new }
{
    let Some(at) = names.get(name) else {
        return;
    };
    if *at == number {
        names.swap_remove(name);
    }
}
