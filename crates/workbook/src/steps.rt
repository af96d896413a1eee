// A step without history, and the presses of forward and back.
ghost use Rattle.std.specs.Prelude.{ℕ, ◌≡◌, List, []};
ghost use Rattle.rules.specs.Questions.{method};
ghost use Rattle.rules.specs.Step.{machine};
ghost use Rattle.workbook.specs.Calls.{step_call, forward_call, back_call};

use crate::leaving::{leave, leave_value};
use crate::state_words::{lent_state, read_state};
use history::{back, forward, pressed_by};
use interpreter::step;
use rules::Method;

// A step without history. Each exported function makes its Method itself: a function for that would take the same four parts by the same names. Each takes a refusal's number by a match
// and not by `?`: a function inside it that gave a Result would take all of its parameters again.
#[unsafe(no_mangle)]
pub extern "C" fn workbook_step(
    code: &[u8],
    kinds: &[u8],
    words: &[u32],
    handlers: &[u8],
    slots: &mut [u32],
    state: &mut [u32],
    answer: &mut [u32],
) -> u32
    ensures { record { number = result; slots = slots.new; log = []; state = state.new; answer = answer.new } ≡ step_call (machine code.now kinds.now words.now handlers.now) slots.old state.old answer.old }
{
    let s = match lent_state(state, answer) {
        Ok(s) => s,
        Err(refusal) => return refusal.number(),
    };
    let method = Method {
        code,
        kinds,
        words,
        handlers,
    };
    let stepped = step(&method, slots, s);
    let decision = stepped.decision;
    let a = pressed_by(decision);
    leave_value(answer, a);
    leave(state, stepped.state, a)
}

// A press of forward.
#[unsafe(no_mangle)]
pub extern "C" fn workbook_forward(
    code: &[u8],
    kinds: &[u8],
    words: &[u32],
    handlers: &[u8],
    slots: &mut [u32],
    log: &mut [u32],
    state: &mut [u32],
    answer: &mut [u32],
) -> u32
    ensures { record { number = result; slots = slots.new; log = log.new; state = state.new; answer = answer.new } ≡ forward_call (machine code.now kinds.now words.now handlers.now) slots.old log.old state.old answer.old }
{
    let s = match lent_state(state, answer) {
        Ok(s) => s,
        Err(refusal) => return refusal.number(),
    };
    let method = Method {
        code,
        kinds,
        words,
        handlers,
    };
    let press = forward(&method, slots, log, s);
    let a = press.answer;
    leave_value(answer, a);
    leave(state, press.state, a)
}

// A press of back, whatever the handlers are. It has no answer words.
#[unsafe(no_mangle)]
pub extern "C" fn workbook_back(
    code: &[u8],
    kinds: &[u8],
    words: &[u32],
    slots: &mut [u32],
    log: &[u32],
    state: &mut [u32],
) -> u32
    ensures { (handlers : List ℕ) → record { number = result; slots = slots.new; log = log.now; state = state.new; answer = [] } ≡ back_call (method code.now kinds.now words.now handlers) slots.old log.now state.old }
{
    let s = match read_state(state) {
        Ok(s) => s,
        Err(refusal) => return refusal.number(),
    };
    let method = Method {
        code,
        kinds,
        words,
        handlers: &[],
    };
    let press = back(&method, slots, log, s);
    let a = press.answer;
    leave(state, press.state, a)
}
