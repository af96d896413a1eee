// TABLESWITCH and LOOKUPSWITCH (JVMS 6.5): whether their tables are whole and in order, and the offset for a key.
// `as usize` for a u32: `usize` has no `From<u32>`.
ghost use Rattle.std.specs.Prelude.{◌≡◌, ◌+◌, ◌*◌, ◌^◌, ◌<◌, ◌≤◌, length, map};
ghost use Rattle.values.specs.Kinds.{int};
ghost use Rattle.values.specs.Words.{meaning};
ghost use Rattle.rules.specs.Check.{◌≤ⁿ◌};
ghost use Rattle.rules.specs.Forms.{Row};
ghost use Rattle.rules.specs.Fetch.{u32, aligned, table_check, pairs_from, rising, lookup_check};
ghost use Rattle.operands.specs.Switch.{switch_of, switch_with, counted, pair_of, table_offset, lookup_offset, key_index};

use crate::bytes::read_code_u32;
use integers::{cmpeq, icmple, icmplt};
use rules::Refusal;

// A switch: its length in bytes and its default offset.
#[derive(Clone, Copy)]
pub struct Switch {
    pub size: usize,
    pub default: u32,
}

// A pair of a LOOKUPSWITCH: a key and an offset.
type Pair = [u8; 8];

// The operands of the switch at a place in the code.
#[derive(Clone, Copy)]
struct Operands<'a> {
    code: &'a [u8],
    pc: u32,
}

impl Operands<'_> {
    // Where they begin, after the padding: the next multiple of 4 after the opcode.
    fn start(self) -> usize
        ensures { result ≡ aligned self.entry.pc }
    {
        (self.pc as usize / 4 + 1) * 4
    }

    // The word at an offset from their beginning on.
    fn word(self, offset: usize) -> u32
        requires { offset < 2 ^ 40 }
        ensures { result ≡ u32 self.entry.code.now (aligned self.entry.pc + offset) }
    {
        read_code_u32(self.code, self.start() + offset)
    }

    // The offset of the default branch.
    fn default(self) -> u32
        ensures { result ≡ u32 self.entry.code.now (aligned self.entry.pc) }
    {
        self.word(0)
    }

    // TABLESWITCH: the lowest key.
    fn low(self) -> u32
        ensures { result ≡ u32 self.entry.code.now (aligned self.entry.pc + 4) }
    {
        self.word(4)
    }

    // TABLESWITCH: the highest key.
    fn high(self) -> u32
        ensures { result ≡ u32 self.entry.code.now (aligned self.entry.pc + 8) }
    {
        self.word(8)
    }

    // LOOKUPSWITCH: how many pairs there are; none where the count is negative.
    fn pair_count(self) -> Option<usize>
        ensures { result ≡ counted (u32 self.entry.code.now (aligned self.entry.pc + 4)) }
    {
        let count = self.word(4);
        if count < 0x8000_0000 {
            Some(count as usize)
        } else {
            None
        }
    }

    // Whether so many bytes of them are in the code.
    fn has(self, size: usize) -> bool
        requires { size < 2 ^ 40 }
        ensures { result ≡ (aligned self.entry.pc + size ≤ⁿ length self.entry.code.now) }
    {
        self.start() + size <= self.code.len()
    }

    // The switch, whose operands are so many bytes of the code.
    fn switch(self, size: usize) -> Switch
        requires { aligned self.pc + size ≤ length self.code.now }
        ensures { result ≡ switch_with self.entry.code.now self.entry.pc size }
    {
        Switch {
            size: self.start() + size - self.pc as usize,
            default: self.default(),
        }
    }
}

// TABLESWITCH: its fixed fields, the order of its lowest and highest key, and its whole table.
#[tactic(auto, using(std::proofs::lemmas::Bool::Decides::nat_tests))]
pub fn table_switch(code: &[u8], pc: u32) -> Result<Switch, Refusal>
    ensures { (row : Row) → result ≡ switch_of (table_check code.now pc row) }
{
    let operands = Operands { code, pc };
    if !operands.has(12) {
        return Err(Refusal::OperandBytes);
    }
    let low = operands.low();
    let high = operands.high();
    if !icmple(low, high) {
        return Err(Refusal::SwitchKeys);
    }
    let span = high.wrapping_sub(low) as usize;
    let size = 12 + 4 * (span + 1);
    if !operands.has(size) {
        return Err(Refusal::OperandBytes);
    }
    Ok(operands.switch(size))
}

// TABLESWITCH: the offset for a key, the highest key's among them, or the default.
pub fn table_offset(code: &[u8], pc: u32, key: u32) -> u32
    ensures { meaning int result ≡ table_offset code.now pc (meaning int key) }
{
    let operands = Operands { code, pc };
    let low = operands.low();
    let high = operands.high();
    if !icmple(low, key) {
        return operands.default();
    }
    if !icmple(key, high) {
        return operands.default();
    }
    let i = key.wrapping_sub(low);
    operands.word(12 + 4 * i as usize)
}

// Whether the keys of pairs rise strictly.
fn keys_rise(pairs: &[Pair]) -> bool
    ensures { result ≡ rising (map pair_of pairs.now) }
{
    pairs.is_sorted_by(|a, b| icmplt(read_code_u32(a, 0), read_code_u32(b, 0)))
}

// LOOKUPSWITCH: its fixed fields, its count of pairs, its whole table and the order of all its keys.
#[tactic(auto, using(std::proofs::lemmas::Bool::Decides::nat_tests))]
pub fn lookup_switch(code: &[u8], pc: u32) -> Result<Switch, Refusal>
    ensures { (row : Row) → result ≡ switch_of (lookup_check code.now pc row) }
{
    let operands = Operands { code, pc };
    if !operands.has(8) {
        return Err(Refusal::OperandBytes);
    }
    let Some(n) = operands.pair_count() else {
        return Err(Refusal::SwitchKeys);
    };
    let size = 8 + 8 * n;
    if !operands.has(size) {
        return Err(Refusal::OperandBytes);
    }
    let start = operands.start();
    let (pairs, _) = code[start + 8..start + size].as_chunks::<8>();
    if !keys_rise(pairs) {
        return Err(Refusal::SwitchKeys);
    }
    Ok(operands.switch(size))
}

// How many of n pairs from an offset on stand before the first that has the key: all n, where none has it. Past the end of the code a pair is 0.
fn key_index(code: &[u8], at: usize, n: usize, key: u32) -> usize
    requires { at + 8 * n < 2 ^ 64 }
    ensures { result ≡ key_index (meaning int key) (pairs_from code.now at n) }
{
    (0..n)
        .position(|i| cmpeq(key, read_code_u32(code, at + 8 * i)))
        .unwrap_or(n)
}

// LOOKUPSWITCH: the offset that stands with a key, or the default.
pub fn lookup_offset(code: &[u8], pc: u32, key: u32) -> u32
    ensures { meaning int result ≡ lookup_offset code.now pc (meaning int key) }
{
    let operands = Operands { code, pc };
    let Some(n) = operands.pair_count() else {
        return operands.default();
    };
    let i = key_index(code, operands.start() + 8, n, key);
    if i < n {
        operands.word(8 + 8 * i + 4)
    } else {
        operands.default()
    }
}
