// What an instruction comes to, and the ways to make one.
ghost use Rattle.std.specs.Prelude.{◌≡◌, [], ◌∷◌};
ghost use Rattle.values.specs.Kinds.{long};
ghost use Rattle.values.specs.Words.{words_of};
ghost use Rattle.rules.specs.Forms.{pushes};
ghost use Rattle.effects.specs.Effects.{effect_of};

use integers::{high_word, low_word};
use rules::Six;
use values::Value;

// Words to push or to store, an ArithmeticException, whether a branch is taken, or a value to return.
#[derive(Clone, Copy)]
pub enum Effect {
    Words(Six),
    Throw,
    Branch(bool),
    Return(Value),
}

// Six words.
pub(crate) fn words(w0: u32, w1: u32, w2: u32, w3: u32, w4: u32, w5: u32) -> Effect
    ensures { result ≡ effect_of (pushes (w0 ∷ w1 ∷ w2 ∷ w3 ∷ w4 ∷ w5 ∷ [])) }
{
    Effect::Words(Six {
        w0,
        w1,
        w2,
        w3,
        w4,
        w5,
    })
}

// No word.
pub(crate) fn nothing() -> Effect
    ensures { result ≡ effect_of (pushes []) }
{
    words(0, 0, 0, 0, 0, 0)
}

// One word.
pub(crate) fn one(x: u32) -> Effect
    ensures { result ≡ effect_of (pushes (x ∷ [])) }
{
    words(x, 0, 0, 0, 0, 0)
}

// Two words.
pub(crate) fn two(x: u32, y: u32) -> Effect
    ensures { result ≡ effect_of (pushes (x ∷ y ∷ [])) }
{
    words(x, y, 0, 0, 0, 0)
}

// The two words of a long or a double.
pub(crate) fn split(v: u64) -> Effect
    ensures { result ≡ effect_of (pushes (words_of long v)) }
{
    let low = low_word(v);
    let high = high_word(v);
    two(low, high)
}
