//! Header lines, looked up by name.

ghost use Rattle.std.specs.Prelude.{◌≡◌, ◌≤◌, ◌++◌, ◌∷◌, [], ℕ, List, length, map, All};
ghost use Rattle.std.specs.Char.{to_ascii_lowercase};
ghost use Rattle.httparse.specs.Spans.{IsHeaderWithin};
ghost use Rattle.chk_http.specs.HeaderLines.{values_at, AreNamed};

use httparse::spans::HeaderSpan;

/// The values of the header lines of one name.
#[derive(Clone, Copy)]
pub enum Named<'a> {
    Nothing,
    One(&'a [u8]),
    Several,
}

/// Looks for the lines of a name, which is given in small letters, in one pass over the lines.
pub fn value_named<'a>(bytes: &'a [u8], headers: &[HeaderSpan], name: &[u8]) -> Named<'a>
    requires within { All (IsHeaderWithin (length bytes.now)) headers.now }
    requires small { map to_ascii_lowercase name.now ≡ name.now }
    ensures { AreNamed (values_at name.now bytes.now headers.now) result }
{
    let mut found = Named::Nothing;
    for header in headers {
        if header.name.of(bytes).eq_ignore_ascii_case(name) {
            found = with_value(found, header.value.of(bytes));
        }
    }
    found
}

// The same with one more value.
fn with_value<'a>(found: Named<'a>, value: &'a [u8]) -> Named<'a>
    ensures { (values : List (List ℕ)) → AreNamed values found.entry
        → AreNamed (values ++ value.now ∷ []) result }
{
    match found {
        Named::Nothing => Named::One(value),
        Named::One(_) | Named::Several => Named::Several,
    }
}
