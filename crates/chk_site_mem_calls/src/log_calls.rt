// The calls on logs.
ghost use Rattle.std.specs.Prelude.{◌≡◌, [], ◌∷◌, ◌≤◌, IfOk, length, option_to_list};
ghost use Rattle.chk_site.specs.declared.acts.Call.TheVariants as call;
ghost use Rattle.chk_site.specs.Site.{asked, plain, suffix_given, piece_given, part_text, EndsPast, MayFail, MayBeShort};

use crate::plan::{Planned, Question, done, give, refuse, worded};
use chk_bytes::{Bytes, NoMemory};
use chk_site::{Call, CallFault, Part, Piece, Suffix, Who, Words};
use chk_site_mem_store::{Keeper, ended, newest, one, part_words, piece, read_from, two};
use std::alloc::Global;

/// Puts bytes at the end of a log's base file.
#[derive(Drop)]
pub struct LogAppend<'a> {
    pub who: &'a Who,
    pub path: &'a str,
    pub bytes: &'a [u8],
}

impl Question for LogAppend<'_> {
    type Gives = ();

    ghost asks = { λ s. asked s.who.now call.LogAppend (s.path.now ∷ s.bytes.now ∷ []) 0 0 };

    ghost says = { plain };

    ghost may = { λ s. MayFail };

    fn plan(&self, alloc: Global, _keeper: &Keeper) -> Result<Planned<()>, NoMemory> {
        let words = two(alloc, self.path.as_bytes(), self.bytes)?;
        give(self.who, Call::LogAppend, words, 0, 0, done(alloc), ())
    }

    ghost may_fail = { λ s. tt };

    ghost may_want = { λ s. tt };
}

/// Asks for the suffix of a log's newest generation.
#[derive(Drop)]
pub struct LogNewest<'a> {
    pub who: &'a Who,
    pub path: &'a str,
}

impl Question for LogNewest<'_> {
    type Gives = Option<Suffix>;

    ghost asks = { λ s. asked s.who.now call.LogNewest (s.path.now ∷ []) 0 0 };

    ghost says = { suffix_given };

    ghost may = { λ s. MayFail };

    fn plan(&self, alloc: Global, keeper: &Keeper) -> Result<Planned<Option<Suffix>>, NoMemory> {
        let path = self.path.as_bytes();
        let words = one(alloc, path)?;
        match newest(keeper.log(path)) {
            None => {
                let answer = worded(Words::new(alloc), 0);
                give(self.who, Call::LogNewest, words, 0, 0, answer, None)
            }
            Some(suffix) => {
                let answer = worded(one(alloc, suffix.as_str().as_bytes())?, 0);
                let suffix = suffix.copy()?;
                give(self.who, Call::LogNewest, words, 0, 0, answer, Some(suffix))
            }
        }
    }

    ghost may_fail = { λ s. tt };

    ghost may_want = { λ s. tt };
}

/// Asks for a generation's bytes from a place on.
pub struct LogRead<'a> {
    pub who: &'a Who,
    pub path: &'a str,
    pub part: Part<'a>,
    pub at: u64,
    pub max: u32,
}

impl Drop for LogRead<'_> {
    fn drop(self) {
        let LogRead {
            who: _,
            path: _,
            part,
            at: _,
            max: _,
        } = self;
        match part {
            Part::Base | Part::After(_) => {}
        }
    }
}

impl Question for LogRead<'_> {
    type Gives = Piece;

    ghost asks = { λ s. asked s.who.now call.LogRead (s.path.now ∷ part_text s.part ∷ []) s.at s.max };

    ghost says = { piece_given };

    ghost may = { λ s r. MayBeShort r × IfOk r (λ piece. length piece.bytes ≤ s.max) × IfOk r (λ piece. EndsPast s.part piece.ended) };

    fn plan(&self, alloc: Global, keeper: &Keeper) -> Result<Planned<Piece>, NoMemory> {
        let path = self.path.as_bytes();
        let words = part_words(alloc, path, &self.part)?;
        let shown = read_from(keeper.log(path), &self.part);
        let size = shown.bytes.len() as u64;
        if size < self.at {
            let fault = CallFault::Short { size };
            return refuse(self.who, Call::LogRead, words, self.at, self.max, fault);
        }
        let bytes = piece(shown.bytes, self.at as usize, self.max as usize);
        let ended = ended(shown, self.at, self.max)?;
        let answer = worded(piece_words(alloc, bytes, &ended)?, 0);
        let piece = Piece {
            bytes: Bytes::from_slice(alloc, bytes)?,
            ended,
        };
        give(
            self.who,
            Call::LogRead,
            words,
            self.at,
            self.max,
            answer,
            piece,
        )
    }

    ghost may_fail = { λ s. (tt, tt, tt) };

    ghost may_want = { λ s. (tt, tt, tt) };
}

// How a piece stands among the words that were given.
fn piece_words(alloc: Global, bytes: &[u8], ended: &Option<Suffix>) -> Result<Words, NoMemory>
    ensures { IfOk result (λ words. words ≡ bytes.now ∷ option_to_list ended.now) }
{
    match ended {
        None => one(alloc, bytes),
        Some(suffix) => two(alloc, bytes, suffix.as_str().as_bytes()),
    }
}
