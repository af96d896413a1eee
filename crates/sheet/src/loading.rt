// Loading a sheet: checked whole first, filled after.
ghost use Rattle.std.specs.Prelude.{◌≡◌, ◌+◌, ◌≤◌};
ghost use Rattle.rules.specs.Sheet.{sheet_check, state_type, loaded_state, handlers_length, accepted_load, refused_load, load_of, part_of, code_of, handlers_of};
ghost use Rattle.sheet.specs.Filled.{after_load};

use crate::checking::{check_sheet, is_enough};
use crate::filling::{fill_pool, fill_slots};
use crate::records::constants;
use rules::descriptors::Descriptor;
use rules::{Loaded, Reading, Refusal, State};

// The state of a method that is loaded. Every first state is made here.
pub fn loaded_state(max_stack: u16, max_locals: u16, return_type: u32) -> State
    ensures { result ≡ loaded_state max_stack max_locals return_type }
{
    State {
        max_stack,
        max_locals,
        pc: 0,
        depth: 0,
        count: 0,
        return_type,
    }
}

// What a refused load gives: its refusal, a state of zeros and twice the empty part at the sheet's start.
fn refused_load(refusal: Refusal) -> Loaded
    ensures { result ≡ refused_load refusal }
{
    Loaded {
        answer: Err(refusal),
        state: loaded_state(0, 0, 0),
        code: 0,
        code_length: 0,
        handlers: 0,
        handlers_length: 0,
    }
}

// The return type that a state has, a number: 0 where there is no descriptor.
fn state_type(descriptor: Option<Descriptor>) -> u32
    ensures { result ≡ state_type descriptor }
{
    descriptor.map_or(0, |descriptor| descriptor.return_type)
}

// How many bytes of handlers there are: they end where the record of the arguments begins, four bytes before its body.
// What is required is in no type, here, below and in workbook: a Reading has it only from its AR record on, and a type for a whole one would repeat its fields or wrap it.
pub fn handlers_length(p: Reading) -> usize
    requires { p.handlers + 4 ≤ p.arguments }
    ensures { result ≡ handlers_length p }
{
    p.arguments - 4 - p.handlers
}

// What an accepted load gives.
fn accepted_load(p: Reading) -> Loaded
    requires { p.handlers + 4 ≤ p.arguments }
    ensures { result ≡ accepted_load p }
{
    Loaded {
        answer: Ok(()),
        state: loaded_state(p.max_stack, p.max_locals, state_type(p.descriptor)),
        code: p.code,
        code_length: p.code_length,
        handlers: p.handlers,
        handlers_length: handlers_length(p),
    }
}

// The load of a sheet that was read: the memory checked, and then filled. Slots, kinds and words are lent one by one: of a struct that holds them each function that is
// passed it by `&mut` would promise besides, field by field, that it still holds the same references.
pub fn load_read(
    sheet: &[u8],
    slots: &mut [u32],
    kinds: &mut [u8],
    words: &mut [u32],
    p: Reading,
) -> Loaded
    requires { sheet_check sheet.now ≡ Ok p }
    ensures { after_load result slots.new kinds.new words.new ≡ load_of sheet.now slots.old kinds.old words.old }
{
    if !is_enough(&p, slots, kinds, words) {
        return refused_load(Refusal::LentMemory);
    }
    fill_pool(constants(sheet, &p), kinds, words);
    fill_slots(sheet, p, slots);
    accepted_load(p)
}

// A load from any bytes into any memory.
pub fn load(sheet: &[u8], slots: &mut [u32], kinds: &mut [u8], words: &mut [u32]) -> Loaded
    ensures { after_load result slots.new kinds.new words.new ≡ load_of sheet.now slots.old kinds.old words.old }
{
    match check_sheet(sheet) {
        Err(refusal) => refused_load(refusal),
        Ok(p) => load_read(sheet, slots, kinds, words, p),
    }
}

// The part of a sheet with so many bytes from an offset on; where it would reach past the end, the empty part at the sheet's start.
fn part_of(sheet: &[u8], start: usize, count: usize) -> &[u8]
    ensures { result.now ≡ part_of sheet.now start count }
{
    let Some(end) = start.checked_add(count) else {
        return &sheet[..0];
    };
    sheet.get(start..end).unwrap_or(&sheet[..0])
}

// The code that a load found, as the very part of the sheet that holds it; of a load of another sheet that points past this one, the empty part.
pub fn code_of(sheet: &[u8], loaded: Loaded) -> &[u8]
    ensures { result.now ≡ code_of sheet.now loaded }
{
    part_of(sheet, loaded.code, loaded.code_length)
}

// The handlers that a load found, in the same way.
pub fn handlers_of(sheet: &[u8], loaded: Loaded) -> &[u8]
    ensures { result.now ≡ handlers_of sheet.now loaded }
{
    part_of(sheet, loaded.handlers, loaded.handlers_length)
}
