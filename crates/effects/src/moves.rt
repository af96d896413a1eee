// Words that move as they are: constants of the pool, loads and stores (JVMS 2.11.2).
ghost use Rattle.std.specs.Prelude.{◌≡◌, true, ℕ};
ghost use Rattle.instructions.specs.Table.{is_in};
ghost use Rattle.effects.specs.Effects.{effect_at};
ghost use Rattle.effects.specs.Families.{move_opcodes};

use crate::outcome::{Effect, one, two};
use instructions::opcodes::*;

// LDC, LDC2_W, the loads and the stores, of one word or of two.
#[tactic(auto, unfolding(crate::specs::Effects::effect_at, rules::specs::Instructions::row_of))]
pub(crate) fn move_effect(op: u8, a: u32, b: u32) -> Effect
    requires { is_in move_opcodes op ≡ true }
    ensures { (constant c d : ℕ) → result ≡ effect_at op constant a b c d }
{
    match op {
        LDC | ILOAD | ISTORE => one(a), // LDC_W too, and each load and store of one word
        _ => two(a, b), // LDC2_W, and the loads and stores of two words
    }
}
