// What a press, a run or a load leaves in the lent words of the state and the answer.
ghost use Rattle.std.specs.Prelude.{◌≡◌, ◌≤◌, length};
ghost use Rattle.rules.specs.Answers.{pressed_answer, end_answer};
ghost use Rattle.workbook.specs.StateWords.{state_size};
ghost use Rattle.workbook.specs.Calls.{state_after, answer_after, with_value, with_steps};

use crate::state_words::write_state;
use frame::write_words;
use history::{answer, halt_answer, pressed_answer, value_answer};
use integers::{high_word, low_word};
use rules::{Answer, End, Halt, Pressed, State};
use values::Value;

// What ended a run: 120, a number of the C interface, where it was stopped.
pub(crate) fn end_answer(end: End) -> Answer
    ensures { result ≡ end_answer end }
{
    match end {
        None => answer(120, 0),
        Some(halt) => halt_answer(halt),
    }
}

// Writes the state where a press is granted.
fn leave_state(state: &mut [u32], s: State, a: Pressed)
    requires { state_size ≤ length state.old }
    ensures { state.new ≡ state_after state.old s a }
{
    if a.is_ok() {
        write_state(state, s);
    }
}

// Writes the two words of a value.
fn write_value(answer: &mut [u32], v: Value)
    requires { 2 ≤ length answer.old }
    ensures { answer.new ≡ with_value answer.old v }
{
    let value = value_answer(v);
    let words = [value.low, value.high];
    write_words(answer, 0, &words);
}

// Writes the value where a press meets a return.
pub(crate) fn leave_value(answer: &mut [u32], a: Pressed)
    requires { 2 ≤ length answer.old }
    ensures { answer.new ≡ answer_after answer.old a }
{
    if let Err(Halt::Return(v)) = a {
        write_value(answer, v);
    }
}

// Writes the state where a press is granted, and gives its number.
pub(crate) fn leave(state: &mut [u32], s: State, a: Pressed) -> u32
    requires { state_size ≤ length state.old }
    ensures value { result ≡ (pressed_answer a).number }
    ensures state_after { state.new ≡ state_after state.old s a }
{
    leave_state(state, s, a);
    let answer = pressed_answer(a);
    answer.number
}

// Writes a value's two words and a number of steps, low word first.
pub(crate) fn write_steps(answer: &mut [u32], low: u32, high: u32, steps: u64)
    requires { 4 ≤ length answer.old }
    ensures { answer.new ≡ with_steps answer.old low high steps }
{
    let words = [low, high, low_word(steps), high_word(steps)];
    write_words(answer, 0, &words);
}
