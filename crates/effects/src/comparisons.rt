// Comparisons of longs, floats and doubles (JVMS 2.11.3).
ghost use Rattle.std.specs.Prelude.{◌≡◌, true, ℕ};
ghost use Rattle.instructions.specs.Table.{is_in};
ghost use Rattle.effects.specs.Effects.{effect_at};
ghost use Rattle.effects.specs.Families.{comparison_opcodes};

use crate::on_stack::OnStack;
use crate::outcome::{Effect, one};
use floats::compare;
use instructions::opcodes::*;
use integers::lcmp;
use std::cmp::Ordering;

// LCMP to DCMPG.
#[tactic(auto, unfolding(crate::specs::Effects::effect_at, rules::specs::Instructions::row_of))]
pub(crate) fn comparison_effect(op: u8, a: u32, b: u32, c: u32, d: u32) -> Effect
    requires { is_in comparison_opcodes op ≡ true }
    ensures { (constant : ℕ) → result ≡ effect_at op constant a b c d }
{
    let (x, y) = u64::popped(a, b, c, d);
    match op {
        LCMP => one(lcmp(x, y)),
        FCMPL => one(compare::<f32>(a, b, Ordering::Less)),
        FCMPG => one(compare::<f32>(a, b, Ordering::Greater)),
        DCMPL => one(compare::<f64>(x, y, Ordering::Less)),
        _ => one(compare::<f64>(x, y, Ordering::Greater)), // DCMPG
    }
}
