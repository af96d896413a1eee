// The bytes of the code, big-endian; past its end they read as 0.
ghost use Rattle.std.specs.Prelude.{◌≡◌};
ghost use Rattle.values.specs.Kinds.{int};
ghost use Rattle.values.specs.Words.{bits};
ghost use Rattle.rules.specs.Fetch.{u8, u16, u32, s8, s16};

use integers::{extended8, extended16};
use rules::get_or;

// The byte at an offset.
pub fn read_code_u8(code: &[u8], at: usize) -> u8
    ensures { result ≡ u8 code.now at }
{
    get_or(code, at, 0)
}

// Two bytes, the high one first.
pub fn read_code_u16(code: &[u8], at: usize) -> u16
    ensures { result ≡ u16 code.now at }
{
    if code.len() <= at {
        return 0;
    }
    let high = read_code_u8(code, at);
    let low = read_code_u8(code, at + 1);
    u16::from_be_bytes([high, low])
}

// Four bytes, the high ones first. Nearly always all are there, and one test says so: without it a turn of ILOAD_0 and a LOOKUPSWITCH of 100 keys took
// 0.34 to 0.38 µs, and takes 0.24 with it.
pub fn read_code_u32(code: &[u8], at: usize) -> u32
    ensures { result ≡ u32 code.now at }
{
    if code.len() <= at {
        return 0;
    }
    if let Some(bytes) = code[at..].first_chunk::<4>() {
        return u32::from_be_bytes(*bytes);
    }
    let high = read_code_u16(code, at);
    let low = read_code_u16(code, at + 2);
    u32::from(high) << 16 | u32::from(low)
}

// A byte with its sign, as an int.
pub fn read_code_i8(code: &[u8], at: usize) -> u32
    ensures { result ≡ bits int (s8 code.now at) }
{
    extended8(read_code_u8(code, at))
}

// Two bytes with their sign, as an int.
pub fn read_code_i16(code: &[u8], at: usize) -> u32
    ensures { result ≡ bits int (s16 code.now at) }
{
    extended16(read_code_u16(code, at))
}
