// What the functions under test answer, in the fields of a vector.
use const_pool::{Width, load_constant};
use instructions::opcodes::*;
use instructions::{Entry, decode, entry};
use operands::{lookup_offset, read_code_u8, table_offset};
use rules::{Method, Refusal};
use walks::LentPool;

// Three numbers, 0 where there is none, or a refusal.
pub(crate) type Answer = Result<[u64; 3], Refusal>;

// The entry of the opcode at an offset, of the one after it where it is WIDE.
fn expected_entry(code: &[u8], pc: u32) -> Option<Entry> {
    // `usize` has no `From<u32>`, here and for a switch
    let at = pc as usize;
    match read_code_u8(code, at) {
        WIDE => entry(read_code_u8(code, at + 1)),
        opcode => entry(opcode),
    }
}

// The length, the index and the constant of the instruction at an offset; none where it is not that of its opcode.
pub(crate) fn instruction(code: &[u8], pc: u32) -> Option<Answer> {
    match decode(code, pc) {
        Err(refusal) => Some(Err(refusal)),
        Ok(d) if expected_entry(code, pc) == Some(d.entry) => {
            // `u64` has no `From<usize>`
            let size = d.size as u64;
            Some(Ok([size, d.index.into(), d.constant.into()]))
        }
        Ok(_) => None,
    }
}

// The offset of the branch that the switch at an offset takes for a key; none where there is no switch.
pub(crate) fn branch(code: &[u8], pc: u32, key: u32) -> Option<Answer> {
    let offset = match read_code_u8(code, pc as usize) {
        TABLESWITCH => table_offset(code, pc, key),
        LOOKUPSWITCH => lookup_offset(code, pc, key),
        _ => return None,
    };
    Some(Ok([offset.into(), 0, 0]))
}

// The words of the constant at an index of a pool, for an opcode that loads one; none for any other.
pub(crate) fn constant(pool: &LentPool, index: u32, opcode: u32) -> Option<Answer> {
    let width = match u8::try_from(opcode) {
        Ok(LDC) => Width::One,
        Ok(LDC2_W) => Width::Two,
        _ => return None,
    };
    let method = Method {
        code: &[],
        kinds: pool.kinds,
        words: pool.words,
        handlers: &[],
    };
    let found = load_constant(&method, index, width);
    Some(found.map(|found| [found.low.into(), found.high.into(), 0]))
}
