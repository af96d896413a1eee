// Conversions (JVMS 2.11.4).
ghost use Rattle.std.specs.Prelude.{◌≡◌, true, ℕ};
ghost use Rattle.instructions.specs.Table.{is_in};
ghost use Rattle.effects.specs.Effects.{effect_at};
ghost use Rattle.effects.specs.Families.{conversion_opcodes};

use crate::outcome::{Effect, one, split};
use conversions::{of_float, of_int, to_int};
use instructions::opcodes::*;
use integers::{i2b, i2c, i2l, i2s, join_words, l2i};

// I2L to I2S.
#[tactic(auto, unfolding(crate::specs::Effects::effect_at, rules::specs::Instructions::row_of))]
pub(crate) fn conversion_effect(op: u8, a: u32, b: u32) -> Effect
    requires { is_in conversion_opcodes op ≡ true }
    ensures { (constant c d : ℕ) → result ≡ effect_at op constant a b c d }
{
    let x = join_words(a, b);
    match op {
        I2L => split(i2l(a)),
        I2F => one(of_int::<u32, f32>(a)),
        I2D => split(of_int::<u32, f64>(a)),
        L2I => one(l2i(x)),
        L2F => one(of_int::<u64, f32>(x)),
        L2D => split(of_int::<u64, f64>(x)),
        F2I => one(to_int::<f32, u32>(a)),
        F2L => split(to_int::<f32, u64>(a)),
        F2D => split(of_float::<f32, f64>(a)),
        D2I => one(to_int::<f64, u32>(x)),
        D2L => split(to_int::<f64, u64>(x)),
        D2F => one(of_float::<f64, f32>(x)),
        I2B => one(i2b(a)),
        I2C => one(i2c(a)),
        _ => one(i2s(a)), // I2S
    }
}
