// Words moved about on the operand stack (JVMS 2.11.6).
ghost use Rattle.std.specs.Prelude.{◌≡◌, true, ℕ};
ghost use Rattle.instructions.specs.Table.{is_in};
ghost use Rattle.effects.specs.Effects.{effect_at};
ghost use Rattle.effects.specs.Families.{stack_opcodes};

use crate::outcome::{Effect, nothing, two, words};
use instructions::opcodes::*;

// POP to SWAP; the top word is the last of those popped.
#[tactic(auto, unfolding(crate::specs::Effects::effect_at, rules::specs::Instructions::row_of))]
pub(crate) fn stack_effect(op: u8, a: u32, b: u32, c: u32, d: u32) -> Effect
    requires { is_in stack_opcodes op ≡ true }
    ensures { (constant : ℕ) → result ≡ effect_at op constant a b c d }
{
    match op {
        POP | POP2 => nothing(),
        DUP => two(a, a),
        DUP_X1 => words(b, a, b, 0, 0, 0),
        DUP_X2 => words(c, a, b, c, 0, 0),
        DUP2 => words(a, b, a, b, 0, 0),
        DUP2_X1 => words(b, c, a, b, c, 0),
        DUP2_X2 => words(c, d, a, b, c, d),
        _ => two(b, a), // SWAP
    }
}
