// The words that an instruction works on: in the pool, in its local, or on the operand stack. `as usize` for a u32: `usize` has no `From<u32>`.
ghost use Rattle.std.specs.Prelude.{◌≡◌};
ghost use Rattle.rules.specs.Lent.{lent, plain};
ghost use Rattle.interpreter.specs.Stages.{four, four_at, reads_local, read_of};

use crate::instruction::Instruction;
use const_pool::{Constant, Width, load_constant};
use effects::Four;
use instructions::opcodes::*;
use rules::{Refusal, get_or};

// Four words from a place on. Nearly always all are there: with each read by itself it was tried, and a step of the int loop took 19.3 machine instructions more.
fn four_at(slots: &[u32], place: u32) -> Four
    ensures { result ≡ four_at slots.now place }
{
    let at = place as usize;
    if let Some([a, b, c, d]) = slots.get(at..at + 4) {
        return Four {
            a: *a,
            b: *b,
            c: *c,
            d: *d,
        };
    }
    let a = get_or(slots, at, 0);
    let b = get_or(slots, at + 1, 0);
    let c = get_or(slots, at + 2, 0);
    let d = get_or(slots, at + 3, 0);
    Four { a, b, c, d }
}

// The words of a constant.
fn constant_words(constant: Constant) -> Four
    ensures { result ≡ four constant.low constant.high 0 0 }
{
    Four {
        a: constant.low,
        b: constant.high,
        c: 0,
        d: 0,
    }
}

// Whether a shared opcode reads its local: the loads and IINC.
fn reads_local(op: u8) -> bool
    ensures { result ≡ reads_local op }
{
    matches!(op, ILOAD | LLOAD | IINC)
}

impl Instruction<'_> {
    // The words that it works on.
    #[tactic(auto, unfolding(crate::specs::Stages::read_of))]
    pub(crate) fn words(&self, slots: &[u32]) -> Result<Four, Refusal>
        ensures { result ≡ read_of (plain (lent self.now.method.now)) slots.now self.now.located.op self.now.located.index self.now.located.base }
    {
        let method = self.method;
        let index = self.located.index;
        match self.located.op {
            LDC => Ok(constant_words(load_constant(method, index, Width::One)?)),
            LDC2_W => Ok(constant_words(load_constant(method, index, Width::Two)?)),
            // a guard: with the three as an or-pattern it was tried, and a step of the int loop took 4.3 machine instructions more
            op if reads_local(op) => Ok(four_at(slots, index)),
            _ => Ok(four_at(slots, self.located.base)),
        }
    }
}
