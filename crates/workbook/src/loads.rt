// The load.
ghost use Rattle.std.specs.Prelude.{◌≡◌, ◌+◌, ◌^◌, ◌≤◌, ◌<◌, length};
ghost use Rattle.std.proofs.Math.Seq.{paste};
ghost use Rattle.rules.specs.Check.{is_passed};
ghost use Rattle.rules.specs.Sheet.{sheet_check};
ghost use Rattle.workbook.specs.Calls.{parts_of, words_check, load_call};
ghost use Rattle.workbook.specs.Demand3.{FromThisLoad};

use crate::state_words::{are_lent, write_state};
use frame::write_words;
use rules::{Loaded, Reading, Refusal};
use sheet::{check_sheet, handlers_length, load_read};

// Whether there are state and answer words, and the length of the handlers is a word.
fn has_words(state: &[u32], answer: &[u32], p: Reading) -> bool
    requires { p.handlers + 4 ≤ p.arguments }
    ensures { result ≡ is_passed (words_check state.now answer.now p) }
{
    are_lent(state, answer) && handlers_length(p) <= 0xFFFF_FFFF
}

// Writes where the code begins and how long it is, and the same of the handlers: `as u32`, since the contract keeps each in range.
fn write_parts(answer: &mut [u32], loaded: Loaded)
    requires in_bounds { 4 ≤ length answer.old }
    requires code_bound { (loaded.code < 2 ^ 32) × (loaded.code_length < 2 ^ 32) × (loaded.handlers < 2 ^ 32) × (loaded.handlers_length < 2 ^ 32) }
    ensures { answer.new ≡ paste answer.old 0 (parts_of loaded) 4 }
{
    let words = [
        loaded.code as u32,
        loaded.code_length as u32,
        loaded.handlers as u32,
        loaded.handlers_length as u32,
    ];
    write_words(answer, 0, &words);
}

// Loads a sheet that was read. Slots, kinds and words are lent one by one, as the C interface has them.
fn load_lent(
    sheet: &[u8],
    slots: &mut [u32],
    kinds: &mut [u8],
    words: &mut [u32],
    state: &mut [u32],
    answer: &mut [u32],
    p: Reading,
) -> u32
    requires { sheet_check sheet.now ≡ Ok p }
    ensures { record { number = result; slots = slots.new; kinds = kinds.new; words = words.new; state = state.new; answer = answer.new } ≡ load_call sheet.now slots.old kinds.old words.old state.old answer.old }
{
    if !has_words(state, answer, p) {
        return Refusal::LentMemory.number();
    }
    let loaded = load_read(sheet, slots, kinds, words, p);
    let accepted = loaded.answer;
    match accepted {
        Err(refusal) => refusal.number(),
        Ok(()) => {
            write_state(state, loaded.state);
            write_parts(answer, loaded);
            0
        }
    }
}

// Loads a sheet. A refused load writes no lent word.
#[unsafe(no_mangle)]
pub extern "C" fn workbook_load(
    sheet: &[u8],
    slots: &mut [u32],
    kinds: &mut [u8],
    words: &mut [u32],
    state: &mut [u32],
    answer: &mut [u32],
) -> u32
    ensures answer_after { record { number = result; slots = slots.new; kinds = kinds.new; words = words.new; state = state.new; answer = answer.new } ≡ load_call sheet.now slots.old kinds.old words.old state.old answer.old }
    ensures from_this_load { FromThisLoad sheet.now (record { number = result; slots = slots.new; kinds = kinds.new; words = words.new; state = state.new; answer = answer.new }) }
{
    let checked = check_sheet(sheet);
    match checked {
        Err(refusal) => refusal.number(),
        Ok(p) => load_lent(sheet, slots, kinds, words, state, answer, p),
    }
}
