// The target of a branch (JVMS 6.5, goto), which is counted from the opcode, and question 10.
// `as usize` for a u32: `usize` has no `From<u32>`.
ghost use Rattle.std.specs.Prelude.{◌≡◌, pos, ◌+ℤ◌};
ghost use Rattle.values.specs.Kinds.{int};
ghost use Rattle.values.specs.Words.{meaning};
ghost use Rattle.rules.specs.Step.{inside};

use rules::Refusal;

// Question 10: a place, if it is in the code.
pub fn inside(code: &[u8], place: usize) -> Result<usize, Refusal>
    ensures { result ≡ inside code.now (pos place) }
{
    if place < code.len() {
        Ok(place)
    } else {
        Err(Refusal::Target)
    }
}

// The place an offset away from a base. It is worked out as 2^31 more, which is never negative.
pub fn jump_relative(code: &[u8], base: u32, offset: u32) -> Result<usize, Refusal>
    ensures { result ≡ inside code.now (pos base +ℤ meaning int offset) }
{
    let raised = base as usize + (offset as usize + 0x8000_0000) % 0x1_0000_0000;
    if raised < 0x8000_0000 {
        return Err(Refusal::Target);
    }
    inside(code, raised - 0x8000_0000)
}
