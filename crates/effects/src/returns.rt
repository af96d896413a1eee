// Returns (JVMS 2.11.8).
ghost use Rattle.std.specs.Prelude.{◌≡◌, true, ℕ};
ghost use Rattle.instructions.specs.Table.{is_in};
ghost use Rattle.effects.specs.Effects.{effect_at};
ghost use Rattle.effects.specs.Families.{return_opcodes};

use crate::outcome::Effect;
use instructions::opcodes::*;
use integers::join_words;
use values::Value;

// IRETURN to RETURN.
#[tactic(auto, unfolding(crate::specs::Effects::effect_at, rules::specs::Instructions::row_of))]
pub(crate) fn return_effect(op: u8, a: u32, b: u32) -> Effect
    requires { is_in return_opcodes op ≡ true }
    ensures { (constant c d : ℕ) → result ≡ effect_at op constant a b c d }
{
    let x = join_words(a, b);
    Effect::Return(match op {
        IRETURN => Value::Int(a),
        LRETURN => Value::Long(x),
        FRETURN => Value::Float(a),
        DRETURN => Value::Double(x),
        ARETURN => Value::Reference(a),
        _ => Value::Void, // RETURN
    })
}
