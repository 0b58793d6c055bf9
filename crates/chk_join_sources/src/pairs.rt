//! The streams of two archives are gone through side by side.

ghost use Rattle.std.specs.Prelude.{◌≡◌, ◌⊎◌, ◌<◌, ◌≤◌, ◌∷◌, [], true, false, length, drop, map};
ghost use Rattle.chk_book.specs.Views.{end_view};
ghost use Rattle.chk_join_sources.specs.Pairs.{turn_of};
ghost use Rattle.chk_join_sources.specs.declared.pairs.Turn.TheVariants.{Left, Right, Both};

use chk_book::End;

/// How far the ends and the heads of both sides are gone through.
#[derive(Clone, Copy)]
pub(crate) struct Places {
    pub left: usize,
    pub right: usize,
    pub left_head: usize,
    pub right_head: usize,
}

/// Whose stream is the next one.
#[derive(Clone, Copy)]
pub(crate) enum Turn {
    Left,
    Right,
    Both,
}

/// A stream of either side isn't gone through yet.
pub(crate) fn has_more(lefts: &[End], rights: &[End], at: &Places) -> bool
    ensures some { result ≡ true → (at.now.left < length lefts.now) ⊎ (at.now.right < length rights.now) }
    ensures none { result ≡ false → (length lefts.now ≤ at.now.left) × (length rights.now ≤ at.now.right) }
{
    at.left < lefts.len() || at.right < rights.len()
}

/// The side with the next stream in byte order; both where they have the same one.
pub(crate) fn next_turn(lefts: &[End], rights: &[End], left: usize, right: usize) -> Turn
    requires { (left < length lefts.now) ⊎ (right < length rights.now) }
    ensures is { result ≡ turn_of (drop left (map end_view lefts.now)) (drop right (map end_view rights.now)) }
    ensures left { result ≡ Left → left < length lefts.now }
    ensures right { result ≡ Right → right < length rights.now }
    ensures both { result ≡ Both → (left < length lefts.now) × (right < length rights.now) }
{
    if left >= lefts.len() {
        return Turn::Right;
    }
    if right >= rights.len() {
        return Turn::Left;
    }
    turn_between(&lefts[left], &rights[right])
}

/// Which one's stream comes first.
fn turn_between(a: &End, b: &End) -> Turn
    ensures { result ≡ turn_of (end_view a.now ∷ []) (end_view b.now ∷ []) }
{
    if a.is_before(b) {
        Turn::Left
    } else if b.is_before(a) {
        Turn::Right
    } else {
        Turn::Both
    }
}
