// Ints, longs and words compared (JVMS 2.11.3, 2.11.7).
#![tactic(auto, using(crate::proofs::Comparison::signed_eq, crate::proofs::Comparison::le_is), unfolding(crate::specs::Widths::number, crate::specs::Widths::low_bits, values::specs::Integers::low))]

ghost use Rattle.std.specs.Prelude.{◌≡◌, not, ◌==◌, pos};
ghost use Rattle.std.specs.Ordering.{match_ordering};
ghost use Rattle.values.specs.Kinds.{int, long};
ghost use Rattle.values.specs.Integers.{−1, order, ◌=ᶻ◌, ◌<ᶻ◌, ◌≤ᶻ◌};
ghost use Rattle.values.specs.Words.{bits, meaning};

use crate::integer::Integer;
use std::cmp::Ordering;

// -1, 0 or 1 as an order is less, equal or greater.
pub fn order_number(order: Ordering) -> u32
    ensures { result ≡ bits int (match_ordering order −1 (pos 0) (pos 1)) }
{
    match order {
        Ordering::Less => 0xffff_ffff,
        Ordering::Equal => 0,
        Ordering::Greater => 1,
    }
}

// LCMP: -1, 0 or 1 as a is less than b, equal or greater.
pub fn lcmp(a: u64, b: u64) -> u32
    ensures { result ≡ bits int (order (meaning long a) (meaning long b)) }
{
    order_number(a.cast_signed().cmp(&b.cast_signed()))
}

// IF_ICMPEQ and IF_ACMPEQ, and IFEQ and IFNULL with 0 for b: the same int, which is the same word.
pub fn cmpeq(a: u32, b: u32) -> bool
    ensures number { result ≡ (meaning int a =ᶻ meaning int b) }
    ensures word { result ≡ (a == b) }
{
    a == b
}

// IF_ICMPNE, IF_ACMPNE, IFNE, IFNONNULL.
pub fn cmpne(a: u32, b: u32) -> bool
    ensures number { result ≡ not (meaning int a =ᶻ meaning int b) }
    ensures word { result ≡ not (a == b) }
{
    a != b
}

// IF_ICMPLT, and IFLT with 0 for b: a < b. With the two exchanged IF_ICMPGT, IFGT.
pub fn icmplt(a: u32, b: u32) -> bool
    ensures { result ≡ (meaning int a <ᶻ meaning int b) }
{
    a.less(b)
}

// IF_ICMPLE, and IFLE with 0 for b: a ≤ b. With the two exchanged IF_ICMPGE, IFGE.
pub fn icmple(a: u32, b: u32) -> bool
    ensures { result ≡ (meaning int a ≤ᶻ meaning int b) }
{
    !b.less(a)
}
