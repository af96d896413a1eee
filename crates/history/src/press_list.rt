// A list of presses, made one after the other.
ghost use Rattle.std.specs.Prelude.{◌≡◌, ◌+◌, ◌*◌, ◌≤◌, length};
ghost use Rattle.std.proofs.Math.Seq.{paste};
ghost use Rattle.rules.specs.Lent.{lent};
ghost use Rattle.rules.specs.Step.{core_machine, core_rules};
ghost use Rattle.rules.specs.Walk.{press_of, walk_of};
ghost use Rattle.rules.specs.Presses.{press_of_byte, presses_of_bytes, answer_words, replayed, replay_of, FromAnyLoad};
ghost use Rattle.history.specs.Left.{pressed, left};

use crate::answer_words::pressed_answer;
use crate::back_press::back;
use crate::forward_press::{PressResult, forward};
use frame::write_words;
use rules::{Method, Pressed, Refusal, State};

// The press of a byte: 0 is back, any other forward. That is the C interface, a byte a press.
// Method, slots, log and state stay apart, here and in five functions more: a struct of them would hold `&mut` parts, and promise in each contract that it still holds
// the same.
fn press(method: &Method, slots: &mut [u32], log: &mut [u32], s: State, byte: u8) -> PressResult
    ensures { pressed result slots.new log.new ≡ press_of (core_machine (lent method.now)) (press_of_byte byte) s slots.old log.old }
{
    if byte == 0 {
        return back(method, slots, log, s);
    }
    forward(method, slots, log, s)
}

// Writes the three words of an answer.
fn write_answer(answers: &mut [u32], at: usize, a: Pressed)
    requires { at + 3 ≤ length answers.old }
    ensures { answers.new ≡ paste answers.old at (answer_words a) 3 }
{
    let answer = pressed_answer(a);
    write_words(answers, at, &[answer.number, answer.low, answer.high]);
}

// Makes all presses, each on the state that the last one gave.
fn make_presses(
    method: &Method,
    slots: &mut [u32],
    log: &mut [u32],
    s: State,
    bytes: &[u8],
    answers: &mut [u32],
) -> State
    requires { 3 * length bytes.now ≤ length answers.old }
    ensures { left (Ok result) s slots.new log.new answers.new ≡ replayed answers.old (length bytes.now) (walk_of (core_machine (lent method.now)) (presses_of_bytes bytes.now) s slots.old log.old) }
{
    let mut t = s;
    // no `as_chunks_mut`: of the words that are written through its parts the toolchain's contracts say nothing
    for (i, byte) in bytes.iter().enumerate() {
        let p = press(method, slots, log, t, *byte);
        write_answer(answers, 3 * i, p.answer);
        t = p.state;
    }
    t
}

// A list of presses on any method, slots, log and state, one byte each, with three words for each answer. It gives the state after it; refused, it makes none.
pub fn presses(
    method: &Method,
    slots: &mut [u32],
    log: &mut [u32],
    s: State,
    bytes: &[u8],
    answers: &mut [u32],
) -> Result<State, Refusal>
    ensures answers_after { left result s slots.new log.new answers.new ≡ replay_of (core_machine (lent method.now)) bytes.now s slots.old log.old answers.old }
    ensures from_any_load { FromAnyLoad core_rules (lent method.now) s slots.old log.old answers.old bytes.now (left result s slots.new log.new answers.new) }
{
    if answers.len() / 3 < bytes.len() {
        return Err(Refusal::Lengths);
    }
    Ok(make_presses(method, slots, log, s, bytes, answers))
}
