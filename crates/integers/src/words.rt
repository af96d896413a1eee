// A long's or a double's bits as two words, low word first (IVal::from_long and IVal::as_long of the Rust).
// `as` where a word is cut: `%` and `>>` keep the number in range, and TryFrom would give a Result that cannot fail.
ghost use Rattle.std.specs.Prelude.{◌≡◌, [], ◌∷◌, slice_index};
ghost use Rattle.values.specs.Kinds.{long};
ghost use Rattle.values.specs.Words.{value_at, words_of};

// The bits of a long or a double from its two words.
pub fn join_words(low: u32, high: u32) -> u64
    ensures { result ≡ value_at long (low ∷ high ∷ []) }
{
    u64::from(low) + (u64::from(high) << 32)
}

// The low word of these bits.
pub fn low_word(v: u64) -> u32
    ensures { result ≡ slice_index (words_of long v) 0 }
{
    (v % 0x1_0000_0000) as u32
}

// The high word of these bits.
pub fn high_word(v: u64) -> u32
    ensures { result ≡ slice_index (words_of long v) 1 }
{
    (v >> 32) as u32
}
