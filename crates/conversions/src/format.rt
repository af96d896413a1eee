// The formats of IEEE 754 by the words that their values are stored as (JVMS 2.3.2): of a float f32, of a double f64.
// The impls are written out, since no macro may write one here.
ghost use Rattle.std.specs.Prelude.{◌≡◌, ◌*◌, ◌<◌, ◌^◌, refl};
ghost use Rattle.std.specs.Float.Ieee as Ieee;
ghost use Rattle.std.specs.Float.{nan, binary32, binary64};
ghost use Rattle.std.specs.Float.Ieee.{prec, low, hid, ones, top, to_bits};

use crate::words::Word;

// What a format's words are made of, each a method so that it carries its promise.
pub trait Format {
    type Word: Word;

    ghost format: { Ieee.Format };

    // How many digits a number has, the leading one counted.
    fn digits() -> u32
        ensures { result ≡ prec format };

    // How far the smallest number, 1, is moved down.
    fn low() -> u32
        ensures { result ≡ low format };

    // What the exponent's field counts in, and the weight of the leading digit that the field stands for.
    fn hidden() -> u64
        ensures { result ≡ hid format };

    // The exponent's field of an infinity and of a NaN.
    fn ones() -> u64
        ensures { result ≡ ones format };

    ghost sign_is: { 2 ^ Self.Word.below ≡ top format };

    // The weight of a word's sign.
    final fn sign() -> u64
        ensures { result ≡ top format }
    {
        Self::Word::sign()
    }

    // A word's number.
    final fn number(word: Self::Word) -> u64
        ensures same { result ≡ Self.Word.number word }
        ensures in_range { result < 2 * top format }
    {
        word.number()
    }

    // The word with a number.
    final fn word(n: u64) -> Self::Word
        requires { n < 2 * top format }
        ensures { Self.Word.number result ≡ n }
    {
        Self::Word::of_number(n)
    }

    // The number of infinity's word.
    final fn infinity() -> u64
        ensures { result ≡ ones format * hid format }
    {
        Self::ones() * Self::hidden()
    }

    // The word that a NaN is stored as.
    #[tactic(auto, using(crate::proofs::RoundedBits::to_bits_nan))]
    final fn nan() -> Self::Word
        ensures { Self.Word.number result ≡ to_bits format nan }
    {
        Self::word(Self::infinity() + Self::hidden() / 2)
    }
}

impl Format for f32 {
    type Word = u32;

    ghost format = { binary32 };

    ghost sign_is = { refl };

    fn digits() -> u32 {
        24
    }

    fn low() -> u32 {
        149
    }

    fn hidden() -> u64 {
        0x80_0000
    }

    fn ones() -> u64 {
        255
    }
}

impl Format for f64 {
    type Word = u64;

    ghost format = { binary64 };

    ghost sign_is = { refl };

    fn digits() -> u32 {
        53
    }

    fn low() -> u32 {
        1074
    }

    fn hidden() -> u64 {
        0x10_0000_0000_0000
    }

    fn ones() -> u64 {
        2047
    }
}
