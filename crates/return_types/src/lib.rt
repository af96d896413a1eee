// What a method gives back, by its return type (JVMS 2.11.8), with question 32.
#![tactic(auto)]

mod kinds;

ghost use Rattle.std.specs.Prelude.{◌≡◌};
ghost use Rattle.rules.specs.Step.{return_of, decision};
ghost use Rattle.return_types.specs.Settled.{settled};

use crate::kinds::ReturnType;
use rules::{Decision, Halt, Refusal};
use values::Value;

// A return of a value by a method of a return type: a number that is no return type asks nothing, and keeps all.
fn give_back(return_type: u32, v: Value) -> Decision
    ensures { result ≡ decision (return_of return_type v) }
{
    let Some(t) = ReturnType::from_word(return_type) else {
        return Err(Halt::Return(v));
    };
    if !t.suits(v) {
        return Err(Halt::Refused(Refusal::ReturnType));
    }
    Err(Halt::Return(t.given_back(v)))
}

// A decision whose return has not been asked question 32 yet. A run asks it once, of its last decision, and not at each of its steps.
pub fn settle(return_type: u32, decision: Decision) -> Decision
    ensures { result ≡ settled return_type decision }
{
    match decision {
        Err(Halt::Return(v)) => give_back(return_type, v),
        _ => decision,
    }
}
