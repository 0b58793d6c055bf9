// Lists of texts, and of what a stop left.
ghost use Rattle.std.specs.Prelude.{◌≡◌, [], ◌∷◌, ◌++◌, OnOk, OnErr};

use chk_bytes::{Bytes, NoMemory};
use std::alloc::Global;
use std::marker::Model;

/// A list of texts and bytes.
#[derive(Drop)]
pub struct Words {
    items: Vec<Bytes>,
}

impl Model for Words {
    ghost use Rattle.std.specs.Prelude.{List, ℕ};

    ghost Value = { List (List ℕ) };

    ghost view = { λ w. w.items.items };
}

impl Words {
    pub fn new(alloc: Global) -> Words
        ensures { result ≡ [] }
    {
        Words {
            items: Vec::new(alloc),
        }
    }

    pub fn push(&mut self, item: Bytes) -> Result<(), NoMemory>
        ensures ok { OnOk result (self.new ≡ self.old ++ item ∷ []) }
        ensures err { OnErr result (self.new ≡ self.old) }
    {
        self.items.push(item)?;
        Ok(())
    }

    pub fn as_slice(&self) -> &[Bytes]
        ensures { result.now ≡ self.now }
    {
        &self.items
    }
}

/// What a stop left of one file: its bytes past the synced length, and for the name in the stopped call alone (of a
/// rename the old one) whether the create, rename, removal or cut took place. The tail is of the file as it is named
/// after that.
#[derive(Drop)]
pub struct Left {
    pub name: Bytes,
    pub tail: Bytes,
    pub whole: bool,
}

/// What a stop left. Of two entries with one name the first counts.
#[derive(Drop)]
pub struct Lefts {
    items: Vec<Left>,
}

impl Model for Lefts {
    ghost use Rattle.std.specs.Prelude.{List};
    ghost use Rattle.chk_site.specs.declared.lists.Left.{Left};

    ghost Value = { List Left };

    ghost view = { λ l. l.items.items };
}

impl Lefts {
    pub fn new(alloc: Global) -> Lefts
        ensures { result ≡ [] }
    {
        Lefts {
            items: Vec::new(alloc),
        }
    }

    pub fn push(&mut self, item: Left) -> Result<(), NoMemory>
        ensures ok { OnOk result (self.new ≡ self.old ++ item ∷ []) }
        ensures err { OnErr result (self.new ≡ self.old) }
    {
        self.items.push(item)?;
        Ok(())
    }

    pub fn as_slice(&self) -> &[Left]
        ensures { result.now ≡ self.now }
    {
        &self.items
    }
}
