// Questions 4 and 5: the instruction at an offset of the code. `as usize` for a u32: `usize` has no `From<u32>`.
ghost use Rattle.std.specs.Prelude.{◌≡◌, ◌<◌};
ghost use Rattle.rules.specs.Fetch.{fetched, widens, wide_check};
ghost use Rattle.rules.specs.Forms.{Row};
ghost use Rattle.instructions.specs.Decode.{instruction_by, decoded};
ghost use Rattle.instructions.specs.Stages.{core_of, sized_of, fixed_of, implied_in, decoded_by};

use crate::forms::{Entry, Format};
use crate::opcodes::*;
use crate::table::entry;
use operands::{
    Switch, lookup_switch, read_code_i8, read_code_i16, read_code_u8, read_code_u16, read_code_u32,
    table_switch,
};
use rules::Refusal;

// An instruction: its entry in the table, its length in bytes, and its operands.
#[derive(Clone, Copy)]
pub struct Decoded {
    pub entry: Entry,
    pub size: usize,
    pub index: u32,
    pub constant: u32,
}

// Question 4: the entry of an opcode of the core.
#[inline(always)]
fn core(opcode: u8) -> Result<Entry, Refusal>
    ensures { result ≡ core_of opcode }
{
    entry(opcode).ok_or(Refusal::Opcode)
}

// Whether WIDE takes an opcode.
fn is_widened(opcode: u8) -> bool
    ensures { result ≡ widens opcode }
{
    matches!(opcode, ILOAD..=ALOAD | ISTORE..=ASTORE | IINC)
}

// An instruction in the code, before its operands are read: its offset and its entry.
#[derive(Clone, Copy)]
struct Instruction<'a> {
    code: &'a [u8],
    pc: u32,
    entry: Entry,
}

impl Instruction<'_> {
    // Question 5 for an instruction of a length in bytes.
    fn sized(self, size: usize, index: u32, constant: u32) -> Result<Decoded, Refusal>
        requires { size < 512 }
        ensures { result ≡ sized_of self.entry.code.now self.entry.pc self.entry.entry size index constant }
    {
        if self.code.len() < self.pc as usize + size {
            return Err(Refusal::OperandBytes);
        }
        Ok(Decoded {
            entry: self.entry,
            size,
            index,
            constant,
        })
    }

    // Question 5 for an instruction of the length of its format.
    fn fixed(self, index: u32, constant: u32) -> Result<Decoded, Refusal>
        ensures { result ≡ fixed_of self.entry.code.now self.entry.pc self.entry.entry index constant }
    {
        let size = usize::from(self.entry.format.length());
        self.sized(size, index, constant)
    }

    // An accepted switch as an instruction.
    fn switched(self, switch: Switch) -> Decoded
        ensures { result ≡ instruction_by self.entry.entry switch.size 0 switch.default }
    {
        Decoded {
            entry: self.entry,
            size: switch.size,
            index: 0,
            constant: switch.default,
        }
    }

    // The index that the opcode implies; 0 where it implies none.
    fn implied(self) -> u32
        ensures { result ≡ implied_in self.entry.entry.format }
    {
        match self.entry.format {
            Format::Implied(index) => u32::from(index),
            _ => 0,
        }
    }

    // The instruction, by its format. Most instructions have no operand bytes: with a test for them first, and not an arm of the match alone, a processor
    // has a jump by format to foretell where there are operands, and not at each step.
    fn by_format(self) -> Result<Decoded, Refusal>
        ensures { (row : Row) → result ≡ decoded_by self.entry.code.now self.entry.pc row self.entry.entry self.entry.entry.format }
    {
        let code = self.code;
        let at = self.pc as usize + 1;
        if matches!(self.entry.format, Format::Alone | Format::Implied(_)) {
            return self.fixed(self.implied(), 0);
        }
        match self.entry.format {
            // these two are not reached; the match asks for them
            Format::Alone => self.fixed(0, 0),
            Format::Implied(index) => self.fixed(u32::from(index), 0),
            Format::Byte => self.fixed(0, read_code_i8(code, at)),
            Format::Short => self.fixed(0, read_code_i16(code, at)),
            Format::Index => self.fixed(u32::from(read_code_u8(code, at)), 0),
            Format::Index2 => self.fixed(u32::from(read_code_u16(code, at)), 0),
            Format::IndexConst => {
                let index = u32::from(read_code_u8(code, at));
                self.fixed(index, read_code_i8(code, at + 1))
            }
            Format::Branch4 => self.fixed(0, read_code_u32(code, at)),
            Format::Table => Ok(self.switched(table_switch(code, self.pc)?)),
            Format::Pairs => Ok(self.switched(lookup_switch(code, self.pc)?)),
            Format::Widened => wide(code, self.pc),
        }
    }
}

// WIDE: an instruction with its operands at twice the size, and with WIDE itself twice as long.
fn wide(code: &[u8], pc: u32) -> Result<Decoded, Refusal>
    ensures { result ≡ decoded (wide_check code.now pc) }
{
    let at = pc as usize;
    if code.len() <= at + 1 {
        return Err(Refusal::OperandBytes);
    }
    let opcode = read_code_u8(code, at + 1);
    if !is_widened(opcode) {
        return Err(Refusal::Opcode);
    }
    let entry = core(opcode)?;
    let instruction = Instruction { code, pc, entry };
    let index = u32::from(read_code_u16(code, at + 2));
    let size = 2 * usize::from(entry.format.length());
    if opcode == IINC {
        return instruction.sized(size, index, read_code_i16(code, at + 4));
    }
    instruction.sized(size, index, 0)
}

// The instruction at an offset.
pub fn decode(code: &[u8], pc: u32) -> Result<Decoded, Refusal>
    ensures { result ≡ decoded (fetched code.now pc) }
{
    let entry = core(read_code_u8(code, pc as usize))?;
    Instruction { code, pc, entry }.by_format()
}
