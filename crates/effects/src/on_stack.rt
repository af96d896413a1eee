// Numbers by how they lie on the operand stack: an int or a float as one word, a long or a double as two.
ghost use Rattle.std.specs.Prelude.{◌≡◌, refl};
ghost use Rattle.values.specs.Words.{words_of};
ghost use Rattle.rules.specs.Forms.{pushes};
ghost use Rattle.effects.specs.Effects.{effect_of};
ghost use Rattle.effects.specs.OnStack.{first_of, second_of};

use crate::outcome::{Effect, one, split};
use conversions::Word;
use integers::{Integer, join_words};

// The bits of a number. Those of a float lie as an int's do, and those of a double as a long's. That both traits under this one say the same of a word is a law here, and no
// single trait: conversions and integers do not stand on one another.
pub(crate) trait OnStack: Integer + Word {
    // The two numbers that words are, lowest first.
    fn popped(a: u32, b: u32, c: u32, d: u32) -> (Self, Self)
        ensures first { Self.word result.0 ≡ first_of Self.kind a b c d }
        ensures second { Self.word result.1 ≡ second_of Self.kind a b c d };

    // The effect that pushes it.
    fn push(self) -> Effect
        ensures { result ≡ effect_of (pushes (words_of Self.kind (Self.word self))) };

    // The bits are the same number by either trait.
    ghost same: { (x : Self) → Self.Word.number x ≡ Self.Integer.word x };
}

impl OnStack for u32 {
    fn popped(a: u32, b: u32, _c: u32, _d: u32) -> (u32, u32) {
        (a, b)
    }

    fn push(self) -> Effect {
        one(self)
    }

    ghost same = { λ x. refl };
}

impl OnStack for u64 {
    fn popped(a: u32, b: u32, c: u32, d: u32) -> (u64, u64) {
        (join_words(a, b), join_words(c, d))
    }

    fn push(self) -> Effect {
        split(self)
    }

    ghost same = { λ x. refl };
}
