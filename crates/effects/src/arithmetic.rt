// The operations that ints and longs share (JVMS 2.11.3).
#![tactic(auto, unfolding(crate::specs::Operations::word_of, crate::specs::Operations::result_of))]

ghost use Rattle.std.specs.Prelude.{◌≡◌, true};
ghost use Rattle.instructions.specs.Table.{is_in};
ghost use Rattle.effects.specs.Effects.{effect_of};
ghost use Rattle.effects.specs.Families.{shared_int_opcodes};
ghost use Rattle.effects.specs.Operations.{operation_at, result_of};

use crate::on_stack::OnStack;
use crate::outcome::Effect;
use instructions::opcodes::*;

// Each by its mnemonics without the letter of the type.
#[derive(Clone, Copy)]
pub(crate) enum Operation {
    Add,
    Sub,
    Mul,
    Div,
    Rem,
    Neg,
    Shl,
    Shr,
    Ushr,
    And,
    Or,
    Xor,
}

// The operation of an opcode of ints, from IADD to IXOR.
pub(crate) fn operation_of(op: u8) -> Operation
    requires { is_in shared_int_opcodes op ≡ true }
    ensures { result ≡ operation_at op }
{
    match op {
        IADD => Operation::Add,
        ISUB => Operation::Sub,
        IMUL => Operation::Mul,
        IDIV => Operation::Div,
        IREM => Operation::Rem,
        INEG => Operation::Neg,
        ISHL => Operation::Shl,
        ISHR => Operation::Shr,
        IUSHR => Operation::Ushr,
        IAND => Operation::And,
        IOR => Operation::Or,
        _ => Operation::Xor, // IXOR
    }
}

// An operation on two ints or two longs; a division by 0 throws an ArithmeticException.
pub(crate) fn integer_effect<T: OnStack>(operation: Operation, a: T, b: T, count: u32) -> Effect
    ensures { result ≡ effect_of (result_of T.kind operation (T.word a) (T.word b) count) }
{
    match operation {
        Operation::Add => a.add(b).push(),
        Operation::Sub => a.sub(b).push(),
        Operation::Mul => a.mul(b).push(),
        Operation::Div | Operation::Rem if b.is_zero() => Effect::Throw,
        Operation::Div => a.div(b).push(),
        Operation::Rem => a.rem(b).push(),
        Operation::Neg => a.neg().push(),
        Operation::Shl => a.shl(count).push(),
        Operation::Shr => a.shr(count).push(),
        Operation::Ushr => a.ushr(count).push(),
        Operation::And => a.and(b).push(),
        Operation::Or => a.or(b).push(),
        Operation::Xor => a.xor(b).push(),
    }
}
