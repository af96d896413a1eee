// What ints and longs have alike (JVMS 2.3.1, 2.11.3): each operation's promise stands once, over the kind.
ghost use Rattle.std.specs.Prelude.{◌≡◌, ◌<◌, ◌/◌, ◌%◌, ◌^◌, ℕ, ◌+ℤ◌, ◌-ℤ◌, ◌*ℤ◌, neg_ℤ, pos, int_div, int_rem, nat_eq};
ghost use Rattle.std.specs.Int.Signed.{shr_z};
ghost use Rattle.values.specs.Kinds.{Kind, int};
ghost use Rattle.values.specs.Integers.{low, bitwise, and, or, xor, ◌<ᶻ◌};
ghost use Rattle.integers.specs.Widths.{width, count_bits, number, low_bits};

// A two's complement number as a word: an int is a u32, a long a u64. The impls are written out, since no macro may write one here.
pub trait Integer: Copy {
    // `int` or `long`.
    ghost kind: { Kind };

    ghost word: { Self → ℕ };

    // IADD, LADD: the sum.
    fn add(self, other: Self) -> Self
        ensures { word result ≡ low_bits kind (number kind (word self) +ℤ number kind (word other)) };

    // ISUB, LSUB: the difference.
    fn sub(self, other: Self) -> Self
        ensures { word result ≡ low_bits kind (number kind (word self) -ℤ number kind (word other)) };

    // IMUL, LMUL: the product.
    fn mul(self, other: Self) -> Self
        ensures { word result ≡ low_bits kind (number kind (word self) *ℤ number kind (word other)) };

    // INEG, LNEG: the minimum stays.
    fn neg(self) -> Self
        ensures { word result ≡ low_bits kind (neg_ℤ (number kind (word self))) };

    // IDIV, LDIV: the quotient rounded toward zero; the minimum by -1 is the minimum.
    fn div(self, divisor: Self) -> Self
        requires { 0 < word divisor }
        ensures { word result ≡ low_bits kind (int_div (number kind (word self)) (number kind (word divisor))) };

    // IREM, LREM: the remainder of that division, with the dividend's sign.
    fn rem(self, divisor: Self) -> Self
        requires { 0 < word divisor }
        ensures { word result ≡ low_bits kind (int_rem (number kind (word self)) (number kind (word divisor))) };

    // ISHL, LSHL: of the count only the low five or six bits.
    fn shl(self, count: u32) -> Self
        ensures { word result ≡ low_bits kind (number kind (word self) *ℤ pos (2 ^ low (count_bits kind) (number int count))) };

    // ISHR, LSHR: with the sign.
    fn shr(self, count: u32) -> Self
        ensures { word result ≡ low_bits kind (shr_z (number kind (word self)) (2 ^ low (count_bits kind) (number int count))) };

    // IUSHR, LUSHR: with zeros.
    fn ushr(self, count: u32) -> Self
        ensures { word result ≡ word self / 2 ^ (count % width kind) };

    // IAND, LAND: bit by bit.
    fn and(self, other: Self) -> Self
        ensures { word result ≡ bitwise (width kind) and (word self) (word other) };

    // IOR, LOR: bit by bit.
    fn or(self, other: Self) -> Self
        ensures { word result ≡ bitwise (width kind) or (word self) (word other) };

    // IXOR, LXOR: bit by bit.
    fn xor(self, other: Self) -> Self
        ensures { word result ≡ bitwise (width kind) xor (word self) (word other) };

    // Whether a number is less than another, as the tests of two ints and LCMP ask.
    fn less(self, other: Self) -> bool
        ensures { result ≡ (number kind (word self) <ᶻ number kind (word other)) };

    // Whether a division by it throws.
    fn is_zero(self) -> bool
        ensures { result ≡ nat_eq (word self) 0 };
}
