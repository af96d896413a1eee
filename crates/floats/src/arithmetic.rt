// Arithmetic on words, over the format: one operation of IEEE 754 between two converters, the only places where a NaN is treated apart but for the remainder.
ghost use Rattle.std.specs.Prelude.{◌≡◌};
ghost use Rattle.std.specs.Float.Ieee as Ieee;
ghost use Rattle.std.specs.Float.Ieee.{of_bits, to_bits};
ghost use Rattle.values.specs.Integers.{flipped};

use crate::machine::Arithmetic;
use crate::remainder::remainder;
use conversions::{Format, Word};

// The float that a word stands for; every NaN's word stands for the one NaN.
pub(crate) fn float_of<F: Arithmetic>(a: F::Word) -> F
    ensures { F.value result ≡ of_bits F.format (F.Word.number a) }
{
    if F::number(a) % F::sign() > F::infinity() {
        let zero = F::from_bits(F::word(0));
        zero / zero
    } else {
        F::from_bits(a)
    }
}

// The word that a float is stored as: a NaN has the one fixed word.
fn word_of<F: Arithmetic>(x: F) -> F::Word
    ensures { F.Word.number result ≡ to_bits F.format (F.value x) }
{
    if x != x { F::nan() } else { x.to_bits() }
}

// FADD, DADD: a + b.
pub fn add<F: Arithmetic>(a: F::Word, b: F::Word) -> F::Word
    ensures { F.Word.number result ≡ to_bits F.format (Ieee.add F.format (of_bits F.format (F.Word.number a)) (of_bits F.format (F.Word.number b))) }
{
    word_of(float_of::<F>(a) + float_of(b))
}

// FSUB, DSUB: a - b.
pub fn sub<F: Arithmetic>(a: F::Word, b: F::Word) -> F::Word
    ensures { F.Word.number result ≡ to_bits F.format (Ieee.sub F.format (of_bits F.format (F.Word.number a)) (of_bits F.format (F.Word.number b))) }
{
    word_of(float_of::<F>(a) - float_of(b))
}

// FMUL, DMUL: a * b.
pub fn mul<F: Arithmetic>(a: F::Word, b: F::Word) -> F::Word
    ensures { F.Word.number result ≡ to_bits F.format (Ieee.mul F.format (of_bits F.format (F.Word.number a)) (of_bits F.format (F.Word.number b))) }
{
    word_of(float_of::<F>(a) * float_of(b))
}

// FDIV, DDIV: a / b.
pub fn div<F: Arithmetic>(a: F::Word, b: F::Word) -> F::Word
    ensures { F.Word.number result ≡ to_bits F.format (Ieee.div F.format (of_bits F.format (F.Word.number a)) (of_bits F.format (F.Word.number b))) }
{
    word_of(float_of::<F>(a) / float_of(b))
}

// FREM, DREM: a - b * n, n being a / b cut off toward zero; it has a's sign. Kept out of the step's code, whose registers its loops would take.
#[inline(never)]
pub fn rem<F: Format>(a: F::Word, b: F::Word) -> F::Word
    ensures { F.Word.number result ≡ to_bits F.format (Ieee.rem F.format (of_bits F.format (F.Word.number a)) (of_bits F.format (F.Word.number b))) }
{
    let dividend = F::number(a);
    let x = dividend % F::sign();
    let y = F::number(b) % F::sign();
    let end = F::infinity();
    if x >= end || y > end || y == 0 {
        return F::nan();
    }
    if y == end {
        return a;
    }
    F::word(dividend - x + remainder::<F>(x, y))
}

// FNEG, DNEG: the sign turned over, of a zero or a NaN too.
pub fn neg<F: Format>(a: F::Word) -> F::Word
    ensures { F.Word.number result ≡ flipped F.Word.below (F.Word.number a) }
{
    let n = a.number();
    let sign = F::Word::sign();
    if n < sign {
        F::Word::of_number(n + sign)
    } else {
        F::Word::of_number(n - sign)
    }
}
