//! How an adaptor is added.

ghost use Rattle.std.specs.Prelude.{◌≡◌, ◌≤◌, ◌<◌, ◌+◌, ◌++◌, [], ◌∷◌, false, None, IfOk, OnOk};
ghost use Rattle.std.specs.Prelude.{OnErr};
ghost use Rattle.std.specs.Prelude.{length, position};
ghost use Rattle.std.specs.String.{string_bytes};
ghost use Rattle.chk_world.specs.Checkpoints.{most_lines};
ghost use Rattle.chk_agent_adaptor.specs.Adaptors.{is_past};
ghost use Rattle.chk_agent_table.specs.Adaptors.{AreKeysOf, is_of, is_named};

use crate::adaptors::Adaptors;
use crate::keys::{Keys, is_past, name_key};
use crate::names::note;
use crate::streams::put;
use chk_agent_adaptor::Adaptor;
use chk_bytes::{NoMemory, Word};

impl Adaptors {
    /// Adds the adaptor behind the others. There is room for it, none of them is of its stream, and
    /// where it is live none of those has its name.
    pub fn add(&mut self, keys: Keys, adaptor: Adaptor)
        requires room { 0 < self.old.spare }
        requires few { length self.old.items < most_lines }
        requires keys { AreKeysOf adaptor keys }
        requires stream { position (is_of adaptor.kind adaptor.path) self.old.items ≡ None }
        requires name { is_past adaptor.phase ≡ false
            → position (is_named adaptor.name) self.old.items ≡ None }
        ensures items { self.new.items ≡ self.old.items ++ adaptor ∷ [] }
        ensures spare { self.old.spare ≤ self.new.spare + 1 }
    {
        let number = self.streams.len() as u32;
        let live = !is_past(adaptor.phase());
        put(&mut self.streams, keys.stream, adaptor);
        note(&mut self.names, live, keys.name, number);
    }

    /// Takes the memory for the adaptor, and adds it. Without memory nothing changes.
    pub fn push(&mut self, adaptor: Adaptor) -> Result<(), NoMemory>
        requires few { length self.old.items < most_lines }
        requires stream { position (is_of adaptor.kind adaptor.path) self.old.items ≡ None }
        requires name { is_past adaptor.phase ≡ false
            → position (is_named adaptor.name) self.old.items ≡ None }
        ensures ok { OnOk result (self.new.items ≡ self.old.items ++ adaptor ∷ []) }
        ensures err { OnErr result (self.new.items ≡ self.old.items) }
    {
        let keys = self.room_for(&adaptor)?;
        self.add(keys, adaptor);
        Ok(())
    }

    /// Makes the keys of the adaptor, and takes the memory to add it.
    pub fn room_for(&mut self, adaptor: &Adaptor) -> Result<Keys, NoMemory>
        ensures keys { IfOk result (AreKeysOf adaptor.now) }
        ensures room { OnOk result (0 < self.new.spare) }
        ensures items { self.new.items ≡ self.old.items }
    {
        let keys = Keys::new(self.alloc, adaptor)?;
        self.reserve()?;
        Ok(keys)
    }

    /// Makes the key of a name, which is its text, and takes the memory to put a number under it.
    pub fn room_for_name(&mut self, name: &Word) -> Result<String, NoMemory>
        ensures key { IfOk result (λ key. string_bytes key ≡ name.now) }
        ensures room { OnOk result (0 < self.new.spare) }
        ensures items { self.new.items ≡ self.old.items }
    {
        let key = name_key(self.alloc, name)?;
        self.reserve()?;
        Ok(key)
    }

    // Takes the memory for one adaptor more, or for one more name.
    fn reserve(&mut self) -> Result<(), NoMemory>
        ensures room { OnOk result (0 < self.new.spare) }
        ensures items { self.new.items ≡ self.old.items }
    {
        self.streams.reserve(1)?;
        self.names.reserve(1)?;
        Ok(())
    }
}
