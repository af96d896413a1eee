// The formats as the machine has them: f32 and f64, with Rust's operators. The impls are written out, since no macro may write one here.
ghost use Rattle.std.specs.Prelude.{◌≡◌, Float, T, not};
ghost use Rattle.std.specs.Float.{binary32, binary64, NotNan};
ghost use Rattle.std.specs.Float.Ieee.{of_bits, to_bits, nan_bits};
ghost use Rattle.floats.specs.Operators.{IsIeee, machine_ieee};

use conversions::Format;
use std::ops::{Add, Div, Mul, Sub};

// A format whose operators take any two values, and give what IEEE 754 says.
pub trait Arithmetic: Format
    + Copy
    + Drop
    + Add<Self, Output = Self>
    + Sub<Self, Output = Self>
    + Mul<Self, Output = Self>
    + Div<Self, Output = Self>
    + PartialOrd {
    ghost value: { Self → Float };

    fn from_bits(word: Self::Word) -> Self
        requires { T (not (nan_bits Self.format (Self.Word.number word))) }
        ensures { value result ≡ of_bits Self.format (Self.Word.number word) };

    fn to_bits(self) -> Self::Word
        requires { NotNan (value self) }
        ensures { Self.Word.number result ≡ to_bits Self.format (value self) };

    ghost total: { (x y : Self) → Self.can_add x y × Self.can_sub x y × Self.can_mul x y × Self.can_div x y };

    ghost ieee: { IsIeee Self.format value Self.add_gives Self.sub_gives Self.mul_gives Self.div_gives Self.eq Self.partial_cmp };
}

impl Arithmetic for f32 {
    ghost value = { λ x. x };

    ghost total = { λ x y. (tt, tt, tt, tt) };

    ghost ieee = { machine_ieee binary32 };

    fn from_bits(word: u32) -> f32 {
        f32::from_bits(word)
    }

    fn to_bits(self) -> u32 {
        f32::to_bits(self)
    }
}

impl Arithmetic for f64 {
    ghost value = { λ x. x };

    ghost total = { λ x y. (tt, tt, tt, tt) };

    ghost ieee = { machine_ieee binary64 };

    fn from_bits(word: u64) -> f64 {
        f64::from_bits(word)
    }

    fn to_bits(self) -> u64 {
        f64::to_bits(self)
    }
}
