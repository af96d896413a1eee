// The remainder of words without their signs, in whole numbers of the format's smallest value: `%` on floats is a call of C's fmod, and what the toolchain links asks for a
// newer C library than a machine may have.
ghost use Rattle.std.specs.Prelude.{◌≡◌, ◌+◌, ◌*◌, ◌%◌, ◌^◌, ◌<◌, ◌≤◌};
ghost use Rattle.std.specs.Float.Ieee.{hid, ones};
ghost use Rattle.floats.specs.Remainder.{IsWordOf, digits_of, place_of, units_of};

use conversions::Format;

// The digits of a word, with the leading one that its exponent's field stands for.
fn digits_of<F: Format>(word: u64) -> u64
    ensures { result ≡ digits_of (hid F.format) word }
{
    let hidden = F::hidden();
    if word < hidden {
        word
    } else {
        hidden + word % hidden
    }
}

// How far they are moved up.
fn place_of<F: Format>(word: u64) -> u64
    ensures { result ≡ place_of (hid F.format) word }
{
    (word / F::hidden()).saturating_sub(1)
}

// m * 2^shift modulo n.
fn moved_remainder(m: u64, shift: u64, n: u64) -> u64
    requires { (0 < n) × (n ≤ 2 ^ 53) }
    ensures { result ≡ m * 2 ^ shift % n }
{
    let mut rest = m % n;
    for _ in 0..shift {
        rest = rest * 2 % n;
    }
    rest
}

// The word of digits * 2^place units: the digits are moved up until they have their leading one, or are in place.
#[tactic(auto, using(crate::proofs::UnitWords::hid_le))]
fn word_of_units<F: Format>(digits: u64, place: u64) -> u64
    requires { (digits < 2 * hid F.format) × (place ≤ 2045) }
    ensures { IsWordOf (hid F.format) (digits * 2 ^ place) result }
{
    let hidden = F::hidden();
    let mut moved = digits;
    for i in 0..place {
        if hidden <= moved {
            return (place - i) * hidden + moved;
        }
        moved *= 2;
    }
    moved
}

// The word of a modulo b, of words without their signs; b is a number and not 0. What is less than b is the remainder itself.
pub(crate) fn remainder<F: Format>(a: u64, b: u64) -> u64
    requires { (0 < b) × (b < ones F.format * hid F.format) }
    ensures { IsWordOf (hid F.format) (units_of (hid F.format) a % units_of (hid F.format) b) result }
{
    let m = digits_of::<F>(a);
    let n = digits_of::<F>(b);
    let i = place_of::<F>(a);
    let j = place_of::<F>(b);
    if i < j {
        return a;
    }
    word_of_units::<F>(moved_remainder(m, i - j, n), j)
}
