// Ints and longs cut and extended (JVMS 2.11.4). The machine's signed types extend a number with its sign.
// A byte and a short have functions of their own: each is a line, which a trait with two impls would not make plainer.
// `as` where a word is cut: the `%` keeps the number in range, and TryFrom would give a Result that cannot fail.
#![tactic(auto, using(values::proofs::LowBits::low_signed, values::proofs::Integers::low_plus))]

ghost use Rattle.std.specs.Prelude.{◌≡◌};
ghost use Rattle.values.specs.Kinds.{int, long};
ghost use Rattle.values.specs.Integers.{signed, to_byte, to_char, to_short};
ghost use Rattle.values.specs.Words.{bits, meaning};

// I2L: the long that is an int.
pub fn i2l(a: u32) -> u64
    ensures { result ≡ bits long (meaning int a) }
{
    i64::from(a.cast_signed()).cast_unsigned()
}

// L2I: the low word of a long.
pub fn l2i(a: u64) -> u32
    ensures { result ≡ bits int (meaning long a) }
{
    (a % 0x1_0000_0000) as u32
}

// Eight bits with their sign, as an int.
pub fn extended8(byte: u8) -> u32
    ensures { result ≡ bits int (signed 7 byte) }
{
    i32::from(byte.cast_signed()).cast_unsigned()
}

// Sixteen bits with their sign, as an int.
pub fn extended16(short: u16) -> u32
    ensures { result ≡ bits int (signed 15 short) }
{
    i32::from(short.cast_signed()).cast_unsigned()
}

// I2B: the low 8 bits with their sign.
pub fn i2b(a: u32) -> u32
    ensures { result ≡ bits int (to_byte (meaning int a)) }
{
    extended8((a % 0x100) as u8)
}

// I2C: the low 16 bits.
pub fn i2c(a: u32) -> u32
    ensures { result ≡ bits int (to_char (meaning int a)) }
{
    a % 0x1_0000
}

// I2S: the low 16 bits with their sign.
pub fn i2s(a: u32) -> u32
    ensures { result ≡ bits int (to_short (meaning int a)) }
{
    extended16((a % 0x1_0000) as u16)
}
