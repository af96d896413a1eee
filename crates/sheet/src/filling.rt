// The lent memory of an accepted sheet: the constant pool over its whole length, and the words of the frame.
ghost use Rattle.std.specs.Prelude.{◌≡◌, ◌+◌, ◌*◌, ◌≤◌, length, set};
ghost use Rattle.rules.specs.Sheet.{with_kind, with_words, clear, arguments_from, loaded_slots};
ghost use Rattle.sheet.specs.Filled.{pool};
ghost use Rattle.sheet.specs.Records.{with_constants};

use crate::records::{Record, Records};
use operands::read_code_u32;
use rules::{Reading, frame_size};

// A value at an index, if there is such a place.
fn put<T: Copy>(target: &mut [T], index: usize, value: T)
    ensures { target.new ≡ set target.old index value }
{
    if index < target.len() {
        target[index] = value;
    }
}

// The kind of a KI record.
fn enter_kind(constant: &Record, kinds: &mut [u8])
    ensures { kinds.new ≡ with_kind constant.now.sheet.now constant.now.at kinds.old }
{
    put(kinds, usize::from(constant.pool_index()), constant.tag());
}

// The words of a KI record: a value of eight bytes has its high word first.
fn enter_words(constant: &Record, words: &mut [u32])
    ensures { words.new ≡ with_words constant.now.sheet.now constant.now.at words.old }
{
    let index = usize::from(constant.pool_index());
    let first = constant.word();
    if constant.is_wide() {
        put(words, index, constant.second_word());
        put(words, index + 1, first);
    } else {
        put(words, index, first);
    }
}

// The constants of KI records.
fn enter_constants(constants: Records, kinds: &mut [u8], words: &mut [u32])
    ensures { pool kinds.new words.new ≡ with_constants constants.entry (pool kinds.old words.old) }
{
    for constant in constants {
        enter_kind(&constant, kinds);
        enter_words(&constant, words);
    }
}

// The pool of these constants, over its whole length.
pub(crate) fn fill_pool(constants: Records, kinds: &mut [u8], words: &mut [u32])
    ensures { pool kinds.new words.new ≡ with_constants constants.entry (clear kinds.old words.old) }
{
    kinds.fill(0);
    words.fill(0);
    enter_constants(constants, kinds, words);
}

// The argument words, one in each slot.
fn write_arguments(sheet: &[u8], at: usize, slots: &mut [u32])
    requires { at + 4 * length slots.old ≤ length sheet.now }
    ensures { slots.new ≡ arguments_from sheet.now at (length slots.old) }
{
    // `slots.iter_mut().zip(words)` with `words` by `as_chunks::<4>` was tried: after the loop only the length of `slots` is known, so that the proof doesn't close
    for (i, slot) in slots.iter_mut().enumerate() {
        *slot = read_code_u32(sheet, at + 4 * i);
    }
}

// The frame: the arguments, then zeros. Slots beyond it stay.
pub(crate) fn fill_slots(sheet: &[u8], p: Reading, slots: &mut [u32])
    requires { (p.arguments + 4 * p.argument_count ≤ length sheet.now) × (p.argument_count ≤ p.max_locals) × (p.max_locals + p.max_stack ≤ length slots.old) }
    ensures { slots.new ≡ loaded_slots sheet.now p slots.old }
{
    let end = frame_size(p.max_locals, p.max_stack);
    write_arguments(sheet, p.arguments, &mut slots[..p.argument_count]);
    slots[p.argument_count..end].fill(0);
}
