// The marks of a sheet's records: which they are, which may follow which, and the lengths that they allow.
ghost use Rattle.std.specs.Prelude.{◌≡◌};
ghost use Rattle.rules.specs.Fetch.{u16};
ghost use Rattle.rules.specs.Sheet.{is_last, is_narrow, tag_suits, word_suits, known_mark, follows, right_length};

use rules::tags::*;
use rules::{Mark, Refusal};

// The body of a KI record with a value of one word, and of two.
const NARROW_CONSTANT: u16 = 7;

pub(crate) const WIDE_CONSTANT: u16 = 11;

// The mark that two bytes are in ASCII, if they are one.
pub(crate) fn known_mark(bytes: &[u8; 2]) -> Result<Mark, Refusal>
    ensures { result ≡ known_mark (u16 bytes.now 0) }
{
    match bytes {
        b"LM" => Ok(Mark::LM),
        b"DS" => Ok(Mark::DS),
        b"CD" => Ok(Mark::CD),
        b"KI" => Ok(Mark::KI),
        b"EX" => Ok(Mark::EX),
        b"AR" => Ok(Mark::AR),
        _ => Err(Refusal::UnknownMark),
    }
}

// Whether a record may come after the last one.
pub(crate) fn may_follow(mark: Mark, last: Option<Mark>) -> bool
    ensures { result ≡ follows mark last }
{
    matches!(
        (mark, last),
        (Mark::LM, None)
            | (Mark::DS, Some(Mark::LM))
            | (Mark::CD, Some(Mark::LM | Mark::DS))
            | (Mark::KI, Some(Mark::CD | Mark::KI))
            | (Mark::EX | Mark::AR, Some(Mark::CD | Mark::KI | Mark::EX))
    )
}

// Whether the last record is AR, which ends a sheet.
pub(crate) fn ends_sheet(last: Option<Mark>) -> bool
    ensures { result ≡ is_last Mark.AR last }
{
    matches!(last, Some(Mark::AR))
}

// Whether a body has a length that its mark allows.
pub(crate) fn right_length(mark: Mark, size: u16) -> bool
    ensures { result ≡ right_length mark size }
{
    match mark {
        Mark::LM => size == 4,
        Mark::DS | Mark::EX => true,
        Mark::CD => 1 <= size,
        Mark::KI => matches!(size, NARROW_CONSTANT | WIDE_CONSTANT),
        Mark::AR => size % 4 == 0,
    }
}

// Whether a constant of this tag has one word.
fn is_narrow(tag: u8) -> bool
    ensures { result ≡ is_narrow tag }
{
    matches!(tag, CONSTANT_INTEGER | CONSTANT_FLOAT | CONSTANT_CLASS)
}

// Whether a tag suits the body's length.
pub(crate) fn tag_suits(tag: u8, size: u16) -> bool
    ensures { result ≡ tag_suits tag size }
{
    if size == NARROW_CONSTANT {
        return is_narrow(tag);
    }
    matches!(tag, CONSTANT_LONG | CONSTANT_DOUBLE)
}

// Whether a word suits a tag: that of a class is 0 or 1.
pub(crate) fn word_suits(tag: u8, word: u32) -> bool
    ensures { result ≡ word_suits tag word }
{
    tag != CONSTANT_CLASS || word <= 1
}
