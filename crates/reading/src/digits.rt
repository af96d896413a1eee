// Numbers in bytes.
ghost use Rattle.std.specs.Prelude.{◌≡◌, ◌+◌, ◌≤◌, ◌<◌, ℕ, List, Any, IfSome, IfNone, MatchOption, length, slice_range};
ghost use Rattle.std.specs.Int.{w32, from_be_bytes};
ghost use Rattle.reading.specs.Digits.{digit_of, number_of, AreDigits, IsNoDigit};

// The value of an upper-case hexadecimal digit.
pub fn digit_value(byte: u8) -> Option<u8>
    ensures { MatchOption result (IsNoDigit byte) (λ value. (value < 16) × (byte ≡ digit_of value)) }
{
    match byte {
        b'0'..=b'9' => Some(byte - b'0'),
        b'A'..=b'F' => Some(byte - b'A' + 10),
        _ => None,
    }
}

// The number in upper-case hexadecimal digits. Of more than 16, the first ones are lost.
pub fn hexadecimal(digits: &[u8]) -> Option<u64>
    ensures some { IfSome result (λ n. (values : List ℕ) × AreDigits values digits.now × (length digits.now ≤ 16 → n ≡ number_of values)) }
    ensures none { IfNone result (Any IsNoDigit digits.now) }
{
    let mut number: u64 = 0;
    for byte in digits {
        number = number << 4 | u64::from(digit_value(*byte)?);
    }
    Some(number)
}

// The word in four bytes, the high ones first.
pub fn word_at(bytes: &[u8], at: usize) -> u32
    requires { at + 4 ≤ length bytes.now }
    ensures { result ≡ from_be_bytes w32 (slice_range bytes.now at (at + 4)) }
{
    u32::from_be_bytes(*bytes[at..].first_chunk::<4>().unwrap())
}
