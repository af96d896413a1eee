// A state as seven lent words: max_stack, max_locals, pc, depth, count's low word, count's high word, the return type.
ghost use Rattle.std.specs.Prelude.{◌≡◌, ◌≤◌, length};
ghost use Rattle.rules.specs.Check.{is_passed};
ghost use Rattle.workbook.specs.StateWords.{state_size, with_state, lengths_check, size_read, state_read, lent_read};

use frame::write_words;
use integers::{high_word, join_words, low_word};
use rules::{Refusal, State};

// How many words a state has, and an answer.
pub(crate) const STATE_WORDS: usize = 7;

pub(crate) const ANSWER_WORDS: usize = 4;

// Whether there are seven state words and four answer words.
pub(crate) fn are_lent(state: &[u32], answer: &[u32]) -> bool
    ensures { result ≡ is_passed (lengths_check state.now answer.now 4) }
{
    STATE_WORDS <= state.len() && ANSWER_WORDS <= answer.len()
}

// A word as a size, which is at most 65,535.
fn read_size(word: u32) -> Result<u16, Refusal>
    ensures { result ≡ size_read word }
{
    u16::try_from(word).or(Err(Refusal::Lengths))
}

// The state in the words, if there are seven and both sizes fit.
pub(crate) fn read_state(state: &[u32]) -> Result<State, Refusal>
    ensures { result ≡ state_read state.now }
{
    if state.len() < STATE_WORDS {
        return Err(Refusal::Lengths);
    }
    let max_stack = read_size(state[0])?;
    let max_locals = read_size(state[1])?;
    Ok(State {
        max_stack,
        max_locals,
        pc: state[2],
        depth: state[3],
        count: join_words(state[4], state[5]),
        return_type: state[6],
    })
}

// The state in the words, if there are answer words too.
pub(crate) fn lent_state(state: &[u32], answer: &[u32]) -> Result<State, Refusal>
    ensures { result ≡ lent_read state.now answer.now }
{
    if !are_lent(state, answer) {
        return Err(Refusal::Lengths);
    }
    read_state(state)
}

// Writes a state into the words. That there are so many is asked of the caller here and where a press leaves its state: they are lent as a slice, and an array cut from it would ask
// for the same.
pub(crate) fn write_state(state: &mut [u32], s: State)
    requires { state_size ≤ length state.old }
    ensures { state.new ≡ with_state state.old s }
{
    let words = [
        u32::from(s.max_stack),
        u32::from(s.max_locals),
        s.pc,
        s.depth,
        low_word(s.count),
        high_word(s.count),
        s.return_type,
    ];
    write_words(state, 0, &words);
}
