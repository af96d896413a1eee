// Float and double arithmetic (JVMS 2.11.3), over the format.
ghost use Rattle.std.specs.Prelude.{◌≡◌};
ghost use Rattle.values.specs.Words.{words_of};
ghost use Rattle.rules.specs.Forms.{pushes};
ghost use Rattle.effects.specs.Effects.{effect_of};
ghost use Rattle.effects.specs.Floats.{float_result};
ghost use Rattle.effects.specs.OnStack.{first_of, second_of};

use crate::on_stack::OnStack;
use crate::outcome::Effect;
use floats::{Arithmetic, add, div, mul, neg, rem, sub};
use instructions::opcodes::*;

// The result of an opcode, of two values.
fn float_result<F: Arithmetic>(op: u8, x: F::Word, y: F::Word) -> F::Word
    ensures { F.Word.number result ≡ float_result F.format F.Word.below op (F.Word.number x) (F.Word.number y) }
{
    match op {
        FADD | DADD => add::<F>(x, y),
        FSUB | DSUB => sub::<F>(x, y),
        FMUL | DMUL => mul::<F>(x, y),
        FDIV | DDIV => div::<F>(x, y),
        FREM | DREM => rem::<F>(x, y),
        _ => neg::<F>(x), // FNEG, DNEG
    }
}

// FADD to FNEG, or DADD to DNEG.
pub(crate) fn float_effect<F: Arithmetic>(op: u8, a: u32, b: u32, c: u32, d: u32) -> Effect
where
    F::Word: OnStack,
    ensures { let k = F.Word.kind in let x = first_of k a b c d in let y = second_of k a b c d in result ≡ effect_of (pushes (words_of k (float_result F.format F.Word.below op x y))) }
{
    let (x, y) = F::Word::popped(a, b, c, d);
    float_result::<F>(op, x, y).push()
}
