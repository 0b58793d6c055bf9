//! Laws: what is written is read back, and what is read is spelled so. Each is a function without
//! a body, whose clauses hold of all texts and numbers.

ghost use Rattle.chk_bytes.specs.Numbers.{be16, be32, be64};
ghost use Rattle.chk_bytes.specs.Laws.{
  FaultlessIsWord,
  ReadsBack,
  SpellsBack,
  VintReadsBack,
  VintIsShortest,
  VintFollowsTable,
  DecimalReadsBack,
  DigitsReadBack,
  PlainIsDecimal,
  StemReadsBack,
  StemIsSpelled,
  SameStemIsOne,
};

/// Nothing is wrong with a text exactly where it is a word.
pub fn word_is_faultless()
    ensures { FaultlessIsWord }
{}

/// The bytes that `put_u16`, `put_u32` and `put_u64` write are 2, 4 and 8 and spell the number, and
/// any 2, 4 and 8 bytes are those of the number that they spell.
pub fn numbers_read_back()
    ensures two { ReadsBack be16 2 }
    ensures four { ReadsBack be32 4 }
    ensures eight { ReadsBack be64 8 }
    ensures two_spelled { SpellsBack be16 2 }
    ensures four_spelled { SpellsBack be32 4 }
    ensures eight_spelled { SpellsBack be64 8 }
{}

/// `take_vint` reads what `put_vint` wrote, wherever it stands and whatever stands behind it.
pub fn vints_read_back()
    ensures { VintReadsBack }
{}

/// No spelling that `take_vint` accepts is shorter than the one that `put_vint` writes.
pub fn vints_are_shortest()
    ensures { VintIsShortest }
{}

/// `take_vint` accepts just the spellings of the table of variable-length integers, of the numbers
/// below 2^31.
pub fn vints_follow_the_table()
    ensures { VintFollowsTable }
{}

/// Both readers of decimals read what `put_decimal` wrote of a number below 2^63, and the plain
/// one reads nothing else.
pub fn decimals_read_back()
    ensures plain { DecimalReadsBack }
    ensures in_digits { DigitsReadBack }
    ensures spelled { PlainIsDecimal }
{}

/// `Stem::read` reads what `Stem::write` wrote, and nothing else.
pub fn stems_read_back()
    ensures read { StemReadsBack }
    ensures spelled { StemIsSpelled }
{}

/// Two stems are the same by `==` exactly where they are one.
pub fn equal_stems_are_one()
    ensures { SameStemIsOne }
{}
