// The run.
ghost use Rattle.std.specs.Prelude.{◌≡◌, []};
ghost use Rattle.rules.specs.Step.{machine};
ghost use Rattle.workbook.specs.Calls.{run_call};

use crate::leaving::{end_answer, write_steps};
use crate::state_words::{are_lent, read_state, write_state};
use interpreter::run;
use rules::{Method, Refusal};

// A run. One that is refused by questions 1 to 3 leaves the state as it was.
#[unsafe(no_mangle)]
pub extern "C" fn workbook_run(
    code: &[u8],
    kinds: &[u8],
    words: &[u32],
    handlers: &[u8],
    slots: &mut [u32],
    state: &mut [u32],
    answer: &mut [u32],
    budget: u64,
) -> u32
    ensures { record { number = result; slots = slots.new; log = []; state = state.new; answer = answer.new } ≡ run_call (machine code.now kinds.now words.now handlers.now) slots.old state.old answer.old budget }
{
    if !are_lent(state, answer) {
        return Refusal::Lengths.number();
    }
    let s = match read_state(state) {
        Ok(s) => s,
        Err(refusal) => {
            write_steps(answer, 0, 0, 0);
            return refusal.number();
        }
    };
    let method = Method {
        code,
        kinds,
        words,
        handlers,
    };
    let ran = run(&method, slots, s, budget);
    let ended = ran.end;
    let end = end_answer(ended);
    write_state(state, ran.state);
    write_steps(answer, end.low, end.high, ran.steps);
    end.number
}
