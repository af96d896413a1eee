// Floats and doubles to ints and longs: toward zero, to the nearest end of the range where the number is out of it, and 0 for a NaN.
// `as` where an exponent is cut: it is at most `ones`, and TryFrom would give a Result that cannot fail.
ghost use Rattle.std.specs.Prelude.{◌≡◌, ◌*◌, ◌/◌, ◌<◌, ◌^◌, min, suc};
ghost use Rattle.std.specs.Float.Ieee.{of_bits, to_signed};
ghost use Rattle.values.specs.Integers.{low};
ghost use Rattle.conversions.specs.CutOff.{whole_part, saturated};

use crate::format::Format;
use crate::words::Word;

// m * 2^up / 2^down without its fraction, and 2^63 where it is more.
fn scaled(m: u64, up: u32, down: u32) -> u64
    requires { (0 < m) × (m < 2 ^ 63) }
    ensures { result ≡ min (m * 2 ^ up / 2 ^ down) (2 ^ 63) }
{
    if up < down {
        if down - up < 64 { m >> (down - up) } else { 0 }
    } else if up - down < u64::leading_zeros(m) {
        m << (up - down)
    } else {
        0x8000_0000_0000_0000
    }
}

// The whole part of the size of what a word stands for.
fn whole<F: Format>(n: u64) -> u64
    ensures { result ≡ whole_part (of_bits F.format n) }
{
    let exponent = n % F::sign() / F::hidden();
    let digits = n % F::hidden();
    if exponent == 0 {
        0
    } else if exponent < F::ones() {
        scaled(F::hidden() + digits, (exponent - 1) as u32, F::low())
    } else if digits == 0 {
        0x8000_0000_0000_0000
    } else {
        0
    }
}

// The word of the integer nearest to a size with a sign.
fn within<W: Word>(negative: bool, size: u64) -> W
    ensures { W.number result ≡ low (suc W.below) (saturated W.below negative size) }
{
    let sign = W::sign();
    if !negative {
        return W::of_number(size.min(sign - 1));
    }
    let kept = size.min(sign);
    if kept == 0 {
        W::of_number(0)
    } else {
        W::of_number(sign - kept + sign)
    }
}

// F2I, F2L, D2I, D2L: a float or a double cut off to an int or a long.
pub fn to_int<F: Format, W: Word>(a: F::Word) -> W
    ensures { W.number result ≡ low (suc W.below) (to_signed W.below (of_bits F.format (F.Word.number a))) }
{
    let n = F::number(a);
    within(n >= F::sign(), whole::<F>(n))
}
