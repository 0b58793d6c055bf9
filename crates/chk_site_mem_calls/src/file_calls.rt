// The calls on files.
ghost use Rattle.std.specs.Prelude.{◌≡◌, [], ◌∷◌, ◌≤◌, IfOk, length};
ghost use Rattle.chk_site.specs.declared.acts.Call.TheVariants as call;
ghost use Rattle.chk_site.specs.Site.{asked, plain, sized, bytes_given, MayExist, MayMiss, MayMissOrBeShort};

use crate::plan::{Planned, Question, counted, done, give, refuse, worded};
use chk_bytes::{Bytes, NoMemory};
use chk_site::{Call, CallFault, Who};
use chk_site_mem_store::{Keeper, one, piece, two};
use std::alloc::Global;

/// Makes an empty file.
#[derive(Drop)]
pub struct Create<'a> {
    pub who: &'a Who,
    pub name: &'a str,
}

impl Question for Create<'_> {
    type Gives = ();

    ghost asks = { λ s. asked s.who.now call.Create (s.name.now ∷ []) 0 0 };

    ghost says = { plain };

    ghost may = { λ s. MayExist };

    fn plan(&self, alloc: Global, keeper: &Keeper) -> Result<Planned<()>, NoMemory> {
        let name = self.name.as_bytes();
        let words = one(alloc, name)?;
        match keeper.file(name) {
            Some(_) => refuse(self.who, Call::Create, words, 0, 0, CallFault::Exists),
            None => give(self.who, Call::Create, words, 0, 0, done(alloc), ()),
        }
    }

    ghost may_fail = { λ s. tt };

    ghost may_want = { λ s. tt };
}

/// Puts bytes at the end of a file.
#[derive(Drop)]
pub struct Append<'a> {
    pub who: &'a Who,
    pub name: &'a str,
    pub bytes: &'a [u8],
}

impl Question for Append<'_> {
    type Gives = ();

    ghost asks = { λ s. asked s.who.now call.Append (s.name.now ∷ s.bytes.now ∷ []) 0 0 };

    ghost says = { plain };

    ghost may = { λ s. MayMiss };

    fn plan(&self, alloc: Global, keeper: &Keeper) -> Result<Planned<()>, NoMemory> {
        let name = self.name.as_bytes();
        let words = two(alloc, name, self.bytes)?;
        match keeper.file(name) {
            None => refuse(self.who, Call::Append, words, 0, 0, CallFault::Missing),
            Some(_) => give(self.who, Call::Append, words, 0, 0, done(alloc), ()),
        }
    }

    ghost may_fail = { λ s. tt };

    ghost may_want = { λ s. tt };
}

/// Makes sure of a file's bytes.
#[derive(Drop)]
pub struct Sync<'a> {
    pub who: &'a Who,
    pub name: &'a str,
}

impl Question for Sync<'_> {
    type Gives = ();

    ghost asks = { λ s. asked s.who.now call.Sync (s.name.now ∷ []) 0 0 };

    ghost says = { plain };

    ghost may = { λ s. MayMiss };

    fn plan(&self, alloc: Global, keeper: &Keeper) -> Result<Planned<()>, NoMemory> {
        let name = self.name.as_bytes();
        let words = one(alloc, name)?;
        match keeper.file(name) {
            None => refuse(self.who, Call::Sync, words, 0, 0, CallFault::Missing),
            Some(_) => give(self.who, Call::Sync, words, 0, 0, done(alloc), ()),
        }
    }

    ghost may_fail = { λ s. tt };

    ghost may_want = { λ s. tt };
}

/// Gives a file another name.
#[derive(Drop)]
pub struct Rename<'a> {
    pub who: &'a Who,
    pub old: &'a str,
    pub new: &'a str,
}

impl Question for Rename<'_> {
    type Gives = ();

    ghost asks = { λ s. asked s.who.now call.Rename (s.old.now ∷ s.new.now ∷ []) 0 0 };

    ghost says = { plain };

    ghost may = { λ s. MayMiss };

    fn plan(&self, alloc: Global, keeper: &Keeper) -> Result<Planned<()>, NoMemory> {
        let old = self.old.as_bytes();
        let words = two(alloc, old, self.new.as_bytes())?;
        match keeper.file(old) {
            None => refuse(self.who, Call::Rename, words, 0, 0, CallFault::Missing),
            Some(_) => give(self.who, Call::Rename, words, 0, 0, done(alloc), ()),
        }
    }

    ghost may_fail = { λ s. tt };

    ghost may_want = { λ s. tt };
}

/// Removes a file.
#[derive(Drop)]
pub struct Remove<'a> {
    pub who: &'a Who,
    pub name: &'a str,
}

impl Question for Remove<'_> {
    type Gives = ();

    ghost asks = { λ s. asked s.who.now call.Remove (s.name.now ∷ []) 0 0 };

    ghost says = { plain };

    ghost may = { λ s. MayMiss };

    fn plan(&self, alloc: Global, keeper: &Keeper) -> Result<Planned<()>, NoMemory> {
        let name = self.name.as_bytes();
        let words = one(alloc, name)?;
        match keeper.file(name) {
            None => refuse(self.who, Call::Remove, words, 0, 0, CallFault::Missing),
            Some(_) => give(self.who, Call::Remove, words, 0, 0, done(alloc), ()),
        }
    }

    ghost may_fail = { λ s. tt };

    ghost may_want = { λ s. tt };
}

/// Cuts a file to its first bytes.
#[derive(Drop)]
pub struct Cut<'a> {
    pub who: &'a Who,
    pub name: &'a str,
    pub length: u64,
}

impl Question for Cut<'_> {
    type Gives = ();

    ghost asks = { λ s. asked s.who.now call.Cut (s.name.now ∷ []) s.length 0 };

    ghost says = { plain };

    ghost may = { λ s. MayMissOrBeShort };

    fn plan(&self, alloc: Global, keeper: &Keeper) -> Result<Planned<()>, NoMemory> {
        let name = self.name.as_bytes();
        let words = one(alloc, name)?;
        let Some(file) = keeper.file(name) else {
            return refuse(
                self.who,
                Call::Cut,
                words,
                self.length,
                0,
                CallFault::Missing,
            );
        };
        let size = file.bytes.len() as u64;
        if size < self.length {
            return refuse(
                self.who,
                Call::Cut,
                words,
                self.length,
                0,
                CallFault::Short { size },
            );
        }
        give(self.who, Call::Cut, words, self.length, 0, done(alloc), ())
    }

    ghost may_fail = { λ s. tt };

    ghost may_want = { λ s. tt };
}

/// Asks for a file's length.
#[derive(Drop)]
pub struct Size<'a> {
    pub who: &'a Who,
    pub name: &'a str,
}

impl Question for Size<'_> {
    type Gives = u64;

    ghost asks = { λ s. asked s.who.now call.Size (s.name.now ∷ []) 0 0 };

    ghost says = { sized };

    ghost may = { λ s. MayMiss };

    fn plan(&self, alloc: Global, keeper: &Keeper) -> Result<Planned<u64>, NoMemory> {
        let name = self.name.as_bytes();
        let words = one(alloc, name)?;
        match keeper.file(name) {
            None => refuse(self.who, Call::Size, words, 0, 0, CallFault::Missing),
            Some(file) => {
                let size = file.bytes.len() as u64;
                give(
                    self.who,
                    Call::Size,
                    words,
                    0,
                    0,
                    counted(alloc, size),
                    size,
                )
            }
        }
    }

    ghost may_fail = { λ s. tt };

    ghost may_want = { λ s. tt };
}

/// Asks for a file's bytes from a place on.
#[derive(Drop)]
pub struct Read<'a> {
    pub who: &'a Who,
    pub name: &'a str,
    pub at: u64,
    pub max: u32,
}

impl Question for Read<'_> {
    type Gives = Bytes;

    ghost asks = { λ s. asked s.who.now call.Read (s.name.now ∷ []) s.at s.max };

    ghost says = { bytes_given };

    ghost may = { λ s r. MayMissOrBeShort r × IfOk r (λ bytes. length bytes ≤ s.max) };

    fn plan(&self, alloc: Global, keeper: &Keeper) -> Result<Planned<Bytes>, NoMemory> {
        let name = self.name.as_bytes();
        let words = one(alloc, name)?;
        let Some(file) = keeper.file(name) else {
            return refuse(
                self.who,
                Call::Read,
                words,
                self.at,
                self.max,
                CallFault::Missing,
            );
        };
        let size = file.bytes.len() as u64;
        if size < self.at {
            return refuse(
                self.who,
                Call::Read,
                words,
                self.at,
                self.max,
                CallFault::Short { size },
            );
        }
        let bytes = piece(file.bytes.as_slice(), self.at as usize, self.max as usize);
        let answer = worded(one(alloc, bytes)?, 0);
        give(
            self.who,
            Call::Read,
            words,
            self.at,
            self.max,
            answer,
            Bytes::from_slice(alloc, bytes)?,
        )
    }

    ghost may_fail = { λ s. (tt, tt) };

    ghost may_want = { λ s. (tt, tt) };
}
