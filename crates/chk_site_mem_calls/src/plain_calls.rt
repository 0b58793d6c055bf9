// The calls that touch no file and no log.
ghost use Rattle.std.specs.Prelude.{◌≡◌, [], ◌∷◌, IfOk};
ghost use Rattle.chk_site.specs.declared.acts.Call.TheVariants as call;
ghost use Rattle.chk_site.specs.Site.{asked, plain, sized, names_given, MayFail};

use crate::plan::{Planned, Question, counted, done, give, worded};
use chk_bytes::{Bytes, NoMemory, Word};
use chk_site::{Call, Who, Words};
use chk_site_mem_store::{Keeper, one};
use std::alloc::Global;

/// The process acts from here on.
#[derive(Drop)]
pub struct Start<'a> {
    pub who: &'a Who,
}

impl Question for Start<'_> {
    type Gives = ();

    ghost asks = { λ s. asked s.who.now call.Start [] 0 0 };

    ghost says = { plain };

    ghost may = { λ s. MayFail };

    fn plan(&self, alloc: Global, _keeper: &Keeper) -> Result<Planned<()>, NoMemory> {
        give(
            self.who,
            Call::Start,
            Words::new(alloc),
            0,
            0,
            done(alloc),
            (),
        )
    }

    ghost may_fail = { λ s. tt };

    ghost may_want = { λ s. tt };
}

/// Asks for the time: the milliseconds for which the site's own calls have waited.
#[derive(Drop)]
pub struct Clock<'a> {
    pub who: &'a Who,
}

impl Question for Clock<'_> {
    type Gives = u64;

    ghost asks = { λ s. asked s.who.now call.Clock [] 0 0 };

    ghost says = { sized };

    ghost may = { λ s. MayFail };

    fn plan(&self, alloc: Global, keeper: &Keeper) -> Result<Planned<u64>, NoMemory> {
        let now = keeper.clock();
        give(
            self.who,
            Call::Clock,
            Words::new(alloc),
            0,
            0,
            counted(alloc, now),
            now,
        )
    }

    ghost may_fail = { λ s. tt };

    ghost may_want = { λ s. tt };
}

/// Waits.
#[derive(Drop)]
pub struct Pause<'a> {
    pub who: &'a Who,
    pub ms: u64,
}

impl Question for Pause<'_> {
    type Gives = ();

    ghost asks = { λ s. asked s.who.now call.Pause [] s.ms 0 };

    ghost says = { plain };

    ghost may = { λ s. MayFail };

    fn plan(&self, alloc: Global, _keeper: &Keeper) -> Result<Planned<()>, NoMemory> {
        give(
            self.who,
            Call::Pause,
            Words::new(alloc),
            self.ms,
            0,
            done(alloc),
            (),
        )
    }

    ghost may_fail = { λ s. tt };

    ghost may_want = { λ s. tt };
}

/// Prints.
#[derive(Drop)]
pub struct Say<'a> {
    pub who: &'a Who,
    pub bytes: &'a [u8],
}

impl Question for Say<'_> {
    type Gives = ();

    ghost asks = { λ s. asked s.who.now call.Say (s.bytes.now ∷ []) 0 0 };

    ghost says = { plain };

    ghost may = { λ s. MayFail };

    fn plan(&self, alloc: Global, _keeper: &Keeper) -> Result<Planned<()>, NoMemory> {
        let words = one(alloc, self.bytes)?;
        give(self.who, Call::Say, words, 0, 0, done(alloc), ())
    }

    ghost may_fail = { λ s. tt };

    ghost may_want = { λ s. tt };
}

/// Asks for the names in a folder.
#[derive(Drop)]
pub struct List<'a> {
    pub who: &'a Who,
    pub folder: &'a str,
}

impl Question for List<'_> {
    type Gives = Vec<Word>;

    ghost asks = { λ s. asked s.who.now call.List (s.folder.now ∷ []) 0 0 };

    ghost says = { λ names. names_given names.items };

    ghost may = { λ s. MayFail };

    fn plan(&self, alloc: Global, keeper: &Keeper) -> Result<Planned<Vec<Word>>, NoMemory> {
        let folder = self.folder.as_bytes();
        let names = keeper.names(alloc, folder)?;
        let given = worded(texts(alloc, &names)?, 0);
        let words = one(alloc, folder)?;
        give(self.who, Call::List, words, 0, 0, given, names)
    }

    ghost may_fail = { λ s. tt };

    ghost may_want = { λ s. tt };
}

// The texts of the names.
fn texts(alloc: Global, names: &[Word]) -> Result<Words, NoMemory>
    ensures { IfOk result (λ words. words ≡ names.now) }
{
    let mut words = Words::new(alloc);
    for name in names {
        words.push(Bytes::from_slice(alloc, name.as_str().as_bytes())?)?;
    }
    Ok(words)
}
