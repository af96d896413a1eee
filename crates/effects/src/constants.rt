// Constants (JVMS 2.11.2), and NOP, which gives no word.
ghost use Rattle.std.specs.Prelude.{◌≡◌, true, ℕ};
ghost use Rattle.instructions.specs.Table.{is_in};
ghost use Rattle.effects.specs.Effects.{effect_at};
ghost use Rattle.effects.specs.Families.{constant_opcodes};

use crate::outcome::{Effect, nothing, one, two};
use instructions::opcodes::*;

// NOP, and ACONST_NULL to SIPUSH: the words of a constant.
#[tactic(auto, unfolding(crate::specs::Effects::effect_at, rules::specs::Instructions::row_of, values::specs::Integers::low))]
pub(crate) fn constant_effect(op: u8, constant: u32) -> Effect
    requires { is_in constant_opcodes op ≡ true }
    ensures { (a b c d : ℕ) → result ≡ effect_at op constant a b c d }
{
    match op {
        NOP => nothing(),
        ACONST_NULL | ICONST_0 | FCONST_0 => one(0),
        ICONST_M1 => one(0xffff_ffff),
        ICONST_1 => one(1),
        ICONST_2 => one(2),
        ICONST_3 => one(3),
        ICONST_4 => one(4),
        ICONST_5 => one(5),
        LCONST_0 | DCONST_0 => two(0, 0),
        LCONST_1 => two(1, 0),
        FCONST_1 => one(0x3f80_0000),
        FCONST_2 => one(0x4000_0000),
        DCONST_1 => two(0, 0x3ff0_0000),
        _ => one(constant), // BIPUSH, SIPUSH
    }
}
