// Long arithmetic (JVMS 2.11.3): the machine's own operations, the signed ones at its signed type.
#![tactic(auto, using(crate::proofs::Machine::machine_laws))]

ghost use Rattle.values.specs.Kinds.{long};

use crate::integer::Integer;

impl Integer for u64 {
    ghost kind = { long };

    ghost word = { λ a. a };

    fn add(self, other: u64) -> u64 {
        self.wrapping_add(other)
    }

    fn sub(self, other: u64) -> u64 {
        self.wrapping_sub(other)
    }

    fn mul(self, other: u64) -> u64 {
        self.wrapping_mul(other)
    }

    fn neg(self) -> u64 {
        self.wrapping_neg()
    }

    fn div(self, divisor: u64) -> u64 {
        self.cast_signed()
            .wrapping_div(divisor.cast_signed())
            .cast_unsigned()
    }

    fn rem(self, divisor: u64) -> u64 {
        self.cast_signed()
            .wrapping_rem(divisor.cast_signed())
            .cast_unsigned()
    }

    fn shl(self, count: u32) -> u64 {
        self << (count % 64)
    }

    fn shr(self, count: u32) -> u64 {
        (self.cast_signed() >> (count % 64)).cast_unsigned()
    }

    fn ushr(self, count: u32) -> u64 {
        self >> (count % 64)
    }

    fn and(self, other: u64) -> u64 {
        self & other
    }

    fn or(self, other: u64) -> u64 {
        self | other
    }

    fn xor(self, other: u64) -> u64 {
        self ^ other
    }

    fn less(self, other: u64) -> bool {
        self.cast_signed() < other.cast_signed()
    }

    fn is_zero(self) -> bool {
        self == 0
    }
}
