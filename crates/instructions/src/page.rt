// The page of opcodes.
ghost use Rattle.std.specs.Prelude.{◌≡◌};
ghost use Rattle.rules.specs.OpcodePage.{line_of};

use crate::table::entry;
use rules::OpcodeLine;

// The length that marks an opcode outside the core: a number, since the page prints it (a rule of the project).
const OUTSIDE: u32 = 255;

// The line of an opcode, from the entry that a step reads.
pub fn opcode_line(opcode: u8) -> OpcodeLine
    ensures { result ≡ line_of opcode }
{
    match entry(opcode) {
        None => OpcodeLine {
            opcode,
            length: OUTSIDE,
            popped: 0,
            pushed: 0,
        },
        Some(row) => OpcodeLine {
            opcode,
            length: u32::from(row.format.length()),
            popped: u32::from(row.pops),
            pushed: u32::from(row.pushes),
        },
    }
}
