// What ends a walk of steps.
ghost use Rattle.std.specs.Prelude.{◌≡◌};
ghost use Rattle.rules.specs.declared.halts.Halt.TheVariants.{Refused};

use crate::refusals::Refusal;
use crate::updates::Update;
use values::Value;

// An outcome (a return or an ArithmeticException) or a refusal.
#[derive(Clone, Copy)]
pub enum Halt {
    Return(Value),
    Throw,
    Refused(Refusal),
}

impl From<Refusal> for Halt {
    ghost from_gives = { λ refusal halt. halt ≡ Refused refusal };

    fn from(refusal: Refusal) -> Halt {
        Halt::Refused(refusal)
    }
}

// What one step comes to, before anything is written: an ordinary step, or what halts there.
pub type Decision = Result<Update, Halt>;

// What a press of forward or back comes to: granted, or what halts there.
pub type Pressed = Result<(), Halt>;

// What ends a run before its budget does, if anything.
pub type End = Option<Halt>;
