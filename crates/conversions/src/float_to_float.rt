// Floats and doubles to one another, rounded once: the fields are converted without the sign, and the sign is put back.
// `as` where an exponent is cut: it is at most `ones`, and TryFrom would give a Result that cannot fail.
ghost use Rattle.std.specs.Prelude.{◌≡◌, false, ◌<◌, ◌≤◌};
ghost use Rattle.std.specs.Float.Ieee.{of_bits, of_fields, to_bits, prec, hid, ones};
ghost use Rattle.values.specs.Floats.{nearest};

use crate::format::Format;
use crate::rounding::nearest;

// The number of the word nearest to what these fields stand for without a sign.
fn converted<F: Format, G: Format>(exponent: u64, digits: u64) -> u64
    requires { (exponent ≤ ones F.format) × (digits < hid F.format) × (exponent ≡ ones F.format → digits ≡ 0) }
    ensures { result ≡ to_bits G.format (nearest G.format (of_fields F.format false exponent digits)) }
{
    if exponent == F::ones() {
        G::infinity()
    } else if exponent == 0 {
        nearest::<G>(digits, 0, F::low())
    } else {
        nearest::<G>(F::hidden() + digits, (exponent - 1) as u32, F::low())
    }
}

// D2F, F2D: the float or double nearest to a double or float, and the same number where the format has as many digits.
pub fn of_float<F: Format, G: Format>(a: F::Word) -> G::Word
    ensures rounded { G.Word.number result ≡ to_bits G.format (nearest G.format (of_bits F.format (F.Word.number a))) }
    ensures exact { prec F.format ≤ prec G.format → G.Word.number result ≡ to_bits G.format (of_bits F.format (F.Word.number a)) }
{
    let n = F::number(a);
    let unsigned = n % F::sign();
    if unsigned > F::infinity() {
        return G::nan();
    }
    let word = converted::<F, G>(unsigned / F::hidden(), n % F::hidden());
    if n < F::sign() {
        G::word(word)
    } else {
        G::word(G::sign() + word)
    }
}
