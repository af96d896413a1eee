// A list of presses on what a load left.
use crate::beside::run_beside;
use crate::memory::Memory;
use crate::samples::{Begin, Sample};
use crate::tally::Tally;
use history::presses;
use interpreter::moved;
use printing::{checksum, print_list, print_state, print_words};
use rules::{Loaded, Refusal, State};
use std::io;

// Prints an answer as the C interface has it, in words: its number, and the value of a return.
fn print_answer(rt: &impl Print, answer: &[u32; 3]) -> io::Result<()> {
    let [number, low, high] = *answer;
    match number {
        101..=103 => print!(rt; " {number}:{low:08X}"),
        104..=105 => print!(rt; " {number}:{high:08X}{low:08X}"),
        _ => print!(rt; " {number}"),
    }
}

// Prints what a list left.
fn print_left(rt: &impl Print, s: State, memory: &Memory, log: &[u32]) -> io::Result<()> {
    print_state(rt, s)?;
    print_words(rt, b"slots", memory.slots)?;
    println!(rt; "log {:08X}", checksum(log.iter().copied()))?;
    println!(rt; "words {:08X}", checksum(memory.answers.iter().copied()))
}

// Prints the answers of a list's presses, and counts them.
fn print_presses(
    rt: &impl Print,
    bytes: &[u8],
    answers: &[u32],
    tally: &mut Tally,
) -> io::Result<()> {
    println!(rt; "presses 0")?;
    let (all, _) = answers.as_chunks::<3>();
    let made = &all[..bytes.len().min(all.len())];
    tally.count_list(bytes, made);
    print_list(rt, b"answers", made, |answer| print_answer(rt, answer))
}

// Makes presses from a state on, on what a load left.
fn press(
    sheet: &[u8],
    memory: &mut Memory,
    log: &mut [u32],
    loaded: Loaded,
    s: State,
    bytes: &[u8],
) -> Result<State, Refusal> {
    let method = memory.pool.method(sheet, loaded);
    presses(&method, memory.slots, log, s, bytes, memory.answers)
}

// Makes the presses from the sample's offset, depth and count on, and prints what they came to.
fn press_loaded(
    rt: &impl Print,
    sample: &mut Sample,
    memory: &mut Memory,
    loaded: Loaded,
    tally: &mut Tally,
) -> io::Result<State> {
    let begin = sample.begin;
    let s = moved(loaded.state, begin.pc, begin.depth, begin.count);
    let bytes = sample.presses;
    let pressed = press(sample.sheet, memory, sample.log, loaded, s, bytes);
    match pressed {
        Ok(_) => print_presses(rt, bytes, memory.answers, tally)?,
        Err(refusal) => println!(rt; "presses {}\nanswers -", refusal.number())?,
    }
    let left = pressed.unwrap_or(s);
    print_left(rt, left, memory, sample.log)?;
    Ok(left)
}

// Loads a sample's sheet, and makes its presses on what the load left; where they begin at the load, a run goes beside them.
pub(crate) fn make_list(
    rt: &impl Print,
    sample: &mut Sample,
    memory: &mut Memory,
    tally: &mut Tally,
) -> io::Result<()> {
    match memory.pool.load(sample.sheet, memory.slots) {
        Err(refusal) => println!(rt; "sheet {}", refusal.number()),
        Ok(loaded) => {
            let left = press_loaded(rt, sample, memory, loaded, tally)?;
            if sample.begin != Begin::default() {
                return Ok(());
            }
            run_beside(rt, sample.sheet, memory, left)
        }
    }
}
