// The family of a shared opcode, and what it does.
ghost use Rattle.std.specs.Prelude.{◌≡◌, true, ℕ, ◌≤◌, ◌<◌};
ghost use Rattle.instructions.specs.Table.{is_in};
ghost use Rattle.effects.specs.Effects.{effect_at};
ghost use Rattle.effects.specs.Families.{shared_opcodes, arithmetic_kind};

use crate::arithmetic::{integer_effect, operation_of};
use crate::branches::branch_effect;
use crate::comparisons::comparison_effect;
use crate::constants::constant_effect;
use crate::conversion::conversion_effect;
use crate::float::float_effect;
use crate::four::Four;
use crate::moves::move_effect;
use crate::on_stack::OnStack;
use crate::outcome::{Effect, nothing, one};
use crate::returns::return_effect;
use crate::stack::stack_effect;
use instructions::opcodes::*;
use integers::Integer;

// That an opcode is a shared one stands in four contracts and in no type: the table's entry gives it, and a type for it would be made and taken apart at each call.

// Constants, moves and the stack: the opcodes before IADD.
fn plain_effect(op: u8, constant: u32, a: u32, b: u32, c: u32, d: u32) -> Effect
    requires op_value { is_in shared_opcodes op ≡ true }
    requires op_bound { op < 96 }
    ensures { result ≡ effect_at op constant a b c d }
{
    match op {
        NOP..=SIPUSH => constant_effect(op, constant),
        LDC..=ASTORE_3 => move_effect(op, a, b),
        _ => stack_effect(op, a, b, c, d),
    }
}

// What an arithmetic opcode works on.
#[derive(Clone, Copy)]
pub(crate) enum Numbers {
    Ints,
    Longs,
    Floats,
    Doubles,
}

// Ints, longs, floats and doubles take turns, and from ISHL on ints and longs alone.
fn arithmetic_kind(op: u8) -> Numbers
    ensures { result ≡ arithmetic_kind op }
{
    let turn = if op < ISHL { 4 } else { 2 };
    match op % turn {
        0 => Numbers::Ints,
        1 => Numbers::Longs,
        2 => Numbers::Floats,
        _ => Numbers::Doubles,
    }
}

// Arithmetic: the opcodes from IADD to IINC.
fn arithmetic_effect(op: u8, constant: u32, a: u32, b: u32, c: u32, d: u32) -> Effect
    requires op_value { is_in shared_opcodes op ≡ true }
    requires le_op { (96 ≤ op) × (op < 133) }
    ensures { result ≡ effect_at op constant a b c d }
{
    // before the match: as an arm of `effect` it was tried, and a step of the loop of longs and doubles took 1.3 machine instructions more
    if op == IINC {
        return one(a.add(constant));
    }
    match arithmetic_kind(op) {
        Numbers::Ints => integer_effect(operation_of(op), a, b, b),
        // The opcode for longs is the next one after that for ints.
        Numbers::Longs => {
            let (x, y) = u64::popped(a, b, c, d);
            integer_effect(operation_of(op - 1), x, y, c)
        }
        Numbers::Floats => float_effect::<f32>(op, a, b, c, d),
        Numbers::Doubles => float_effect::<f64>(op, a, b, c, d),
    }
}

// Branches, switches, returns and WIDE: the opcodes from IFEQ on.
#[tactic(auto, unfolding(crate::specs::Effects::effect_at, rules::specs::Instructions::row_of))]
fn control_effect(op: u8, a: u32, b: u32) -> Effect
    requires op_value { is_in shared_opcodes op ≡ true }
    requires le_op { 153 ≤ op }
    ensures { (constant c d : ℕ) → result ≡ effect_at op constant a b c d }
{
    // tests in turn: as a match on ranges it was tried, and a step of the int loop took 16.3 machine instructions more
    if op == WIDE {
        return nothing();
    }
    if matches!(op, IRETURN..=RETURN) {
        return return_effect(op, a, b);
    }
    branch_effect(op, a, b)
}

// What a shared opcode does with its constant and its words. The words are taken apart here: passed on as one it was tried, by value and by reference, and a step of the int loop took
// 15.5 machine instructions more.
pub fn effect(op: u8, constant: u32, w: Four) -> Effect
    requires { is_in shared_opcodes op ≡ true }
    ensures { result ≡ effect_at op constant w.a w.b w.c w.d }
{
    let Four { a, b, c, d } = w;
    // in five groups: with an arm for each family it was tried, and a step of the int loop took 42.3 machine instructions more
    match op {
        NOP..=SWAP => plain_effect(op, constant, a, b, c, d),
        IADD..=IINC => arithmetic_effect(op, constant, a, b, c, d),
        I2L..=I2S => conversion_effect(op, a, b),
        LCMP..=DCMPG => comparison_effect(op, a, b, c, d),
        _ => control_effect(op, a, b),
    }
}
