// The constant pool (const_pool.rs) as kinds and words: question 9, and the words of a constant as they stand, a NaN's payload included. `as usize` for a u32: `usize` has no `From<u32>`.
#![tactic(auto)]

ghost use Rattle.std.specs.Prelude.{◌≡◌, ◌||◌};
ghost use Rattle.values.specs.Kinds.{places};
ghost use Rattle.rules.specs.Questions.{tagged};
ghost use Rattle.const_pool.specs.Constant.{constant_of, first_kind, second_kind};

use rules::tags::*;
use rules::{Method, Refusal, get_or};

// How many words a constant has that an instruction loads: one is an int's or a float's (LDC and LDC_W), two are a long's or a double's (LDC2_W).
#[derive(Clone, Copy)]
pub enum Width {
    One,
    Two,
}

impl Width {
    // How many entries of the pool a constant takes.
    fn places(self) -> usize
        ensures { result ≡ places (first_kind self) }
    {
        match self {
            Width::One => 1,
            Width::Two => 2,
        }
    }

    // Whether a tag is that of a constant of this width.
    fn has(self, tag: u8) -> bool
        ensures { result ≡ (tagged tag (first_kind self) || tagged tag (second_kind self)) }
    {
        match self {
            Width::One => matches!(tag, CONSTANT_INTEGER | CONSTANT_FLOAT),
            Width::Two => matches!(tag, CONSTANT_LONG | CONSTANT_DOUBLE),
        }
    }
}

// A constant's words, the high one 0 where it has one word.
#[derive(Clone, Copy)]
pub struct Constant {
    pub low: u32,
    pub high: u32,
}

// The constant of a width that stands at an index; one of two words with a following entry of any kind.
pub fn load_constant(method: &Method, index: u32, width: Width) -> Result<Constant, Refusal>
    ensures { result ≡ constant_of method.now.kinds.now method.now.words.now index (first_kind width) (second_kind width) }
{
    let at = index as usize;
    if method.kinds.len() < at + width.places() || !width.has(method.kinds[at]) {
        return Err(Refusal::Constant);
    }
    let low = get_or(method.words, at, 0);
    let high = match width {
        Width::One => 0,
        Width::Two => get_or(method.words, at + 1, 0),
    };
    Ok(Constant { low, high })
}
