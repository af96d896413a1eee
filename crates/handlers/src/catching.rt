// An exception that is thrown: the step that catches it, or the outcome.
ghost use Rattle.std.specs.Prelude.{◌≡◌};
ghost use Rattle.rules.specs.Lent.{lent};
ghost use Rattle.rules.specs.Step.{caught_at, thrown_at, decision};

use crate::entries::find_handler;
use operands::inside;
use rules::{Decision, Halt, Method, Refusal, Six, State, Update};

// The step to a handler, with questions 7 and 10: the exception is the only word on the stack.
fn catch_at(code: &[u8], s: State, handler: u16) -> Decision
    ensures { result ≡ decision (caught_at code.now s handler) }
{
    if s.max_stack == 0 {
        return Err(Halt::Refused(Refusal::StackOverflow));
    }
    inside(code, usize::from(handler))?;
    Ok(Update {
        pc: u32::from(handler),
        depth: 1,
        first: u32::from(s.max_locals),
        many: 1,
        words: Six {
            w0: 1,
            ..Six::default()
        },
    })
}

// An ArithmeticException that is thrown at a place in the code.
pub fn throw_at(method: &Method, s: State, pc: u32) -> Decision
    ensures { result ≡ decision (thrown_at (lent method.now) s pc) }
{
    match find_handler(method, pc) {
        None => Err(Halt::Throw),
        Some(handler) => catch_at(method.code, s, handler),
    }
}
