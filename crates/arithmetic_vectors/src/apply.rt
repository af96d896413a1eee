// The result of a function for the operands of a vector. A function is known by its opcode in JVMS, IINC after WIDE by that of WIDE.

use conversions::{of_float, of_int, to_int};
use floats::{Arithmetic, compare};
use instructions::opcodes::*;
use integers::{Integer, cmpeq, cmpne, icmple, icmplt, lcmp};
use std::cmp::Ordering;

// An operand that is a word; one that is wider has no result.
fn word(x: u64) -> Option<u32> {
    u32::try_from(x).ok()
}

// The result of two ints or two longs, by the opcode of ints.
fn integer<T: Integer>(op: u8, a: T, b: T) -> Option<T> {
    match op {
        IADD => Some(a.add(b)),
        ISUB => Some(a.sub(b)),
        IMUL => Some(a.mul(b)),
        IDIV if !b.is_zero() => Some(a.div(b)),
        IREM if !b.is_zero() => Some(a.rem(b)),
        INEG if b.is_zero() => Some(a.neg()),
        IAND => Some(a.and(b)),
        IOR => Some(a.or(b)),
        IXOR => Some(a.xor(b)),
        _ => None,
    }
}

// Of an int or a long and a count, by the opcode of ints.
fn shifted<T: Integer>(op: u8, a: T, count: u32) -> Option<T> {
    match op {
        ISHL => Some(a.shl(count)),
        ISHR => Some(a.shr(count)),
        IUSHR => Some(a.ushr(count)),
        _ => None,
    }
}

// Of two floats or two doubles, by the opcode of floats.
fn float<F: Arithmetic>(op: u8, a: F::Word, b: F::Word) -> Option<F::Word> {
    match op {
        FADD => Some(floats::add::<F>(a, b)),
        FSUB => Some(floats::sub::<F>(a, b)),
        FMUL => Some(floats::mul::<F>(a, b)),
        FDIV => Some(floats::div::<F>(a, b)),
        FREM => Some(floats::rem::<F>(a, b)),
        FNEG if F::number(b) == 0 => Some(floats::neg::<F>(a)),
        _ => None,
    }
}

// Of IINC, whose constant has 8 bits, or 16 after WIDE.
fn increment(op: u8, a: u32, constant: u64) -> Option<u32> {
    match op {
        IINC => Some(a.add(integers::extended8(u8::try_from(constant).ok()?))),
        WIDE => Some(a.add(integers::extended16(u16::try_from(constant).ok()?))),
        _ => None,
    }
}

// Of one int or one float that is converted.
fn of_word(op: u8, a: u32) -> Option<u64> {
    match op {
        I2L => Some(integers::i2l(a)),
        I2F => Some(u64::from(of_int::<u32, f32>(a))),
        I2D => Some(of_int::<u32, f64>(a)),
        F2I => Some(u64::from(to_int::<f32, u32>(a))),
        F2L => Some(to_int::<f32, u64>(a)),
        F2D => Some(of_float::<f32, f64>(a)),
        I2B => Some(u64::from(integers::i2b(a))),
        I2C => Some(u64::from(integers::i2c(a))),
        I2S => Some(u64::from(integers::i2s(a))),
        _ => None,
    }
}

// Of one long or one double that is converted.
fn of_two_words(op: u8, a: u64) -> Option<u64> {
    match op {
        L2I => Some(u64::from(integers::l2i(a))),
        L2F => Some(u64::from(of_int::<u64, f32>(a))),
        L2D => Some(of_int::<u64, f64>(a)),
        D2I => Some(u64::from(to_int::<f64, u32>(a))),
        D2L => Some(to_int::<f64, u64>(a)),
        D2F => Some(u64::from(of_float::<f64, f32>(a))),
        _ => None,
    }
}

// Of two longs, floats or doubles that are compared.
fn order(op: u8, a: u64, b: u64) -> Option<u32> {
    match op {
        LCMP => Some(lcmp(a, b)),
        FCMPL => Some(compare::<f32>(word(a)?, word(b)?, Ordering::Less)),
        FCMPG => Some(compare::<f32>(word(a)?, word(b)?, Ordering::Greater)),
        DCMPL => Some(compare::<f64>(a, b, Ordering::Less)),
        DCMPG => Some(compare::<f64>(a, b, Ordering::Greater)),
        _ => None,
    }
}

// Of two ints by whose order a branch is taken.
fn test(op: u8, a: u32, b: u32) -> Option<bool> {
    match op {
        IF_ICMPEQ => Some(cmpeq(a, b)),
        IF_ICMPNE => Some(cmpne(a, b)),
        IF_ICMPLT => Some(icmplt(a, b)),
        IF_ICMPGE => Some(icmple(b, a)),
        IF_ICMPGT => Some(icmplt(b, a)),
        IF_ICMPLE => Some(icmple(a, b)),
        _ => None,
    }
}

// Of the opcodes from IADD to LXOR: ints, longs, floats and doubles take turns, and from ISHL on ints and longs.
fn arithmetic(op: u8, a: u64, b: u64) -> Option<u64> {
    match op {
        ISHL | ISHR | IUSHR => shifted(op, word(a)?, word(b)?).map(u64::from),
        LSHL | LSHR | LUSHR => shifted(op - 1, a, word(b)?),
        IAND | IOR | IXOR => integer(op, word(a)?, word(b)?).map(u64::from),
        LAND | LOR | LXOR => integer(op - 1, a, b),
        _ => match op % 4 {
            0 => integer(op, word(a)?, word(b)?).map(u64::from),
            1 => integer(op - 1, a, b),
            2 => float::<f32>(op, word(a)?, word(b)?).map(u64::from),
            _ => float::<f64>(op - 1, a, b),
        },
    }
}

// The result of the function with an opcode for a and b, or for a alone where b is 0; none where an operand is too wide for it, or the divisor is 0.
fn result(op: u8, a: u64, b: u64) -> Option<u64> {
    match op {
        IADD..=LXOR => arithmetic(op, a, b),
        IINC | WIDE => increment(op, word(a)?, b).map(u64::from),
        L2I..=L2D | D2I..=D2F if b == 0 => of_two_words(op, a),
        I2L..=I2S if b == 0 => of_word(op, word(a)?),
        LCMP..=DCMPG => order(op, a, b).map(u64::from),
        IF_ICMPEQ..=IF_ICMPLE => test(op, word(a)?, word(b)?).map(u64::from),
        _ => None,
    }
}

// Whether that function takes a and b to a result.
pub(crate) fn holds(op: u8, a: u64, b: u64, expected: u64) -> bool {
    result(op, a, b) == Some(expected)
}
