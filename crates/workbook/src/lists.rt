// The list of presses.
ghost use Rattle.std.specs.Prelude.{◌≡◌, ◌*◌, ◌≤◌, length};
ghost use Rattle.std.proofs.Math.Seq.{paste};
ghost use Rattle.rules.specs.Questions.{method};
ghost use Rattle.rules.specs.Step.{machine};
ghost use Rattle.rules.specs.Presses.{answers_words};
ghost use Rattle.workbook.specs.Calls.{all_refused, presses_call};
ghost use Rattle.workbook.specs.Demand3.{FromAnyLoadCall};

use crate::state_words::{STATE_WORDS, read_state, write_state};
use history::presses;
use rules::{Method, Refusal};
use sheet::loaded_state;

// Answers each press with question 1's no, as every press of a frame that its slots do not hold is answered.
fn refuse_presses(method: &Method, log: &mut [u32], bytes: &[u8], answers: &mut [u32])
    requires { 3 * length bytes.now ≤ length answers.old }
    ensures log_unchanged { log.new ≡ log.old }
    ensures answers_after { answers.new ≡ paste answers.old 0 (answers_words (all_refused bytes.now)) (3 * length bytes.now) }
{
    let mut slots = [0u32; 1];
    let _ = presses(
        method,
        &mut slots,
        log,
        loaded_state(1, 1, 0),
        bytes,
        answers,
    );
}

// Makes a list of presses, a byte each, with three words for each answer.
#[unsafe(no_mangle)]
pub extern "C" fn workbook_presses(
    code: &[u8],
    kinds: &[u8],
    words: &[u32],
    handlers: &[u8],
    slots: &mut [u32],
    log: &mut [u32],
    state: &mut [u32],
    bytes: &[u8],
    answers: &mut [u32],
) -> u32
    ensures answers_after { record { number = result; slots = slots.new; log = log.new; state = state.new; answer = answers.new } ≡ presses_call (machine code.now kinds.now words.now handlers.now) slots.old log.old state.old bytes.now answers.old }
    ensures from_any_load_call { FromAnyLoadCall (method code.now kinds.now words.now handlers.now) slots.old log.old state.old bytes.now answers.old (record { number = result; slots = slots.new; log = log.new; state = state.new; answer = answers.new }) }
{
    if answers.len() / 3 < bytes.len() || state.len() < STATE_WORDS {
        return Refusal::Lengths.number();
    }
    let method = Method {
        code,
        kinds,
        words,
        handlers,
    };
    let Ok(s) = read_state(state) else {
        refuse_presses(&method, log, bytes, answers);
        return 0;
    };
    let made = presses(&method, slots, log, s, bytes, answers);
    match made {
        Ok(after) => {
            write_state(state, after);
            0
        }
        Err(refusal) => refusal.number(),
    }
}
