// Answers as numbers and words.
ghost use Rattle.std.specs.Prelude.{◌≡◌};
ghost use Rattle.rules.specs.Answers.{answer, value_answer, halt_answer, pressed_answer};

use integers::{high_word, low_word};
use rules::{Answer, Halt, Pressed};
use values::Value;

// A number and the two words of a value: a word alone has no high one.
pub fn answer(number: u32, value: u64) -> Answer
    ensures { result ≡ answer number value }
{
    Answer {
        number,
        low: low_word(value),
        high: high_word(value),
    }
}

// The value of a return. Its numbers, 101 to 106, and 110 of a throw are those of the C interface.
pub fn value_answer(v: Value) -> Answer
    ensures { result ≡ value_answer v }
{
    match v {
        Value::Void => answer(106, 0),
        Value::Int(w) => answer(101, u64::from(w)),
        Value::Float(w) => answer(102, u64::from(w)),
        Value::Reference(w) => answer(103, u64::from(w)),
        Value::Long(d) => answer(104, d),
        Value::Double(d) => answer(105, d),
    }
}

// What halts a step, a press or a run.
pub fn halt_answer(halt: Halt) -> Answer
    ensures { result ≡ halt_answer halt }
{
    match halt {
        Halt::Return(v) => value_answer(v),
        Halt::Throw => answer(110, 0),
        Halt::Refused(refusal) => answer(refusal.number(), 0),
    }
}

// What a press comes to.
pub fn pressed_answer(a: Pressed) -> Answer
    ensures { result ≡ pressed_answer a }
{
    match a {
        Ok(()) => answer(0, 0),
        Err(halt) => halt_answer(halt),
    }
}
