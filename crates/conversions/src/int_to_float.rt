// Ints and longs to floats and doubles: the magnitude is rounded once, and the sign is put back.
ghost use Rattle.std.specs.Prelude.{◌≡◌};
ghost use Rattle.std.specs.Float.Ieee as Ieee;
ghost use Rattle.std.specs.Float.Ieee.{to_bits};
ghost use Rattle.values.specs.Integers.{signed};

use crate::format::Format;
use crate::rounding::nearest;
use crate::words::Word;

// I2F, I2D, L2F, L2D: the float or double nearest to an int or long.
pub fn of_int<W: Word, F: Format>(a: W) -> F::Word
    ensures { F.Word.number result ≡ to_bits F.format (Ieee.of_int F.format (signed W.below (W.number a))) }
{
    let n = a.number();
    let negative = W::sign();
    if n < negative {
        F::word(nearest::<F>(n, 0, 0))
    } else {
        F::word(F::sign() + nearest::<F>(negative - (n - negative), 0, 0))
    }
}
