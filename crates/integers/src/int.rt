// Int arithmetic (JVMS 2.11.3): the machine's own operations, the signed ones at its signed type.
#![tactic(auto, using(crate::proofs::Machine::machine_laws))]

ghost use Rattle.values.specs.Kinds.{int};

use crate::integer::Integer;

impl Integer for u32 {
    ghost kind = { int };

    ghost word = { λ a. a };

    fn add(self, other: u32) -> u32 {
        self.wrapping_add(other)
    }

    fn sub(self, other: u32) -> u32 {
        self.wrapping_sub(other)
    }

    fn mul(self, other: u32) -> u32 {
        self.wrapping_mul(other)
    }

    fn neg(self) -> u32 {
        self.wrapping_neg()
    }

    fn div(self, divisor: u32) -> u32 {
        self.cast_signed()
            .wrapping_div(divisor.cast_signed())
            .cast_unsigned()
    }

    fn rem(self, divisor: u32) -> u32 {
        self.cast_signed()
            .wrapping_rem(divisor.cast_signed())
            .cast_unsigned()
    }

    fn shl(self, count: u32) -> u32 {
        self << (count % 32)
    }

    fn shr(self, count: u32) -> u32 {
        (self.cast_signed() >> (count % 32)).cast_unsigned()
    }

    fn ushr(self, count: u32) -> u32 {
        self >> (count % 32)
    }

    fn and(self, other: u32) -> u32 {
        self & other
    }

    fn or(self, other: u32) -> u32 {
        self | other
    }

    fn xor(self, other: u32) -> u32 {
        self ^ other
    }

    fn less(self, other: u32) -> bool {
        self.cast_signed() < other.cast_signed()
    }

    fn is_zero(self) -> bool {
        self == 0
    }
}
