// The comparison of two floats or two doubles.
ghost use Rattle.std.specs.Prelude.{◌≡◌, pos};
ghost use Rattle.std.specs.Float.Ieee.{of_bits};
ghost use Rattle.std.specs.Ordering.{match_ordering};
ghost use Rattle.values.specs.Kinds.{int};
ghost use Rattle.values.specs.Floats.{order_or};
ghost use Rattle.values.specs.Integers.{−1};
ghost use Rattle.values.specs.Words.{bits};

use crate::arithmetic::float_of;
use crate::machine::Arithmetic;
use integers::order_number;
use std::cmp::Ordering;

// FCMPL, FCMPG, DCMPL, DCMPG: -1, 0 or 1 as a is less than b, equal or greater. Where one is a NaN the answer is as if a were `unordered`: less for FCMPL and DCMPL,
// greater for FCMPG and DCMPG.
pub fn compare<F: Arithmetic>(a: F::Word, b: F::Word, unordered: Ordering) -> u32
    ensures { result ≡ bits int (order_or (match_ordering unordered −1 (pos 0) (pos 1)) (of_bits F.format (F.Word.number a)) (of_bits F.format (F.Word.number b))) }
{
    order_number(
        float_of::<F>(a)
            .partial_cmp(&float_of(b))
            .unwrap_or(unordered),
    )
}
