// The one place where a result is rounded: to a whole number, and to a word of a format.
ghost use Rattle.std.specs.Prelude.{◌≡◌, ◌*◌, ◌≤◌, ◌^◌, false};
ghost use Rattle.std.specs.Float.Ieee.{round, to_bits};
ghost use Rattle.std.specs.Float.Ieee.Nearest.{closest};

use crate::format::Format;
use std::cmp::Ordering;

// m / 2^shift to the nearest whole number, and a tie to the even one.
fn nearest_quotient(m: u64, shift: u32) -> u64
    ensures { result ≡ closest m (2 ^ shift) }
{
    // less than a half
    if shift > 64 {
        return 0;
    }
    // less than one
    if shift == 64 {
        return u64::from(m > 0x8000_0000_0000_0000);
    }
    let unit = 1u64 << shift;
    let quotient = m / unit;
    let rest = m % unit;
    match rest.cmp(&(unit - rest)) {
        Ordering::Less => quotient,
        Ordering::Equal => quotient + quotient % 2,
        Ordering::Greater => quotient + 1,
    }
}

// The number of the word nearest to m * 2^place / 2^low: m is moved up by its leading zeros, and the digits that the format does not keep are rounded.
pub(crate) fn nearest<F: Format>(m: u64, place: u32, low: u32) -> u64
    requires { (place ≤ 2045) × (low ≤ 1074) }
    ensures { result ≡ to_bits F.format (round F.format false (m * 2 ^ place) (2 ^ low)) }
{
    if m == 0 {
        return 0;
    }
    let zeros = u64::leading_zeros(m);
    let dropped = 64 - F::digits();
    let up = place + F::low() + dropped;
    let down = low + zeros;
    // below the smallest exponent more digits are dropped
    let exponent = up.saturating_sub(down);
    let digits = nearest_quotient(m << zeros, dropped + down.saturating_sub(up));
    // the leading digit adds one to the exponent's field
    (u64::from(exponent) * F::hidden() + digits).min(F::infinity())
}
