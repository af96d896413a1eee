// A sample walked step by step, and run.
use crate::fields::Sample;
use interpreter::run;
use printing::{Ending, print_list, print_state, print_words};
use rules::{Method, State};
use std::io;
use walks::walk;

// A walk's and a run's limit of steps.
const BUDGET: u64 = 60;

// Prints bytes after their name.
fn print_bytes(rt: &impl Print, name: &[u8], bytes: &[u8]) -> io::Result<()> {
    print_list(rt, name, bytes, |byte| print!(rt; " {byte:02X}"))
}

// Prints slots and a state.
fn print_frame(rt: &impl Print, slots: &[u32], s: State) -> io::Result<()> {
    print_words(rt, b"slots", slots)?;
    print_state(rt, s)
}

// Walks step by step, prints a line for each, and gives the number of ordinary steps.
fn print_walk(rt: &impl Print, method: &Method, slots: &mut [u32], s: State) -> io::Result<u64> {
    print_frame(rt, slots, s)?;
    let walked = walk(rt, method, slots, s, BUDGET)?;
    println!(rt; "{}", Ending(walked.end))?;
    // before the first step a state has its count still
    let reached = if walked.steps == 0 { s } else { walked.state };
    print_frame(rt, slots, reached)?;
    Ok(walked.steps)
}

// Runs with a budget, and prints what it came to.
fn print_run(
    rt: &impl Print,
    method: &Method,
    slots: &mut [u32],
    s: State,
    budget: u64,
) -> io::Result<()> {
    let ran = run(method, slots, s, budget);
    println!(rt; "run {budget} {} {}", ran.steps, Ending(ran.end))?;
    print_frame(rt, slots, ran.state)
}

// The slots of a sample, to be written.
fn copied<'a>(lent: &'a mut [u32; 12], slots: &[u32]) -> &'a mut [u32] {
    let count = slots.len().min(lent.len());
    let copy = &mut lent[..count];
    for (place, slot) in copy.iter_mut().zip(slots) {
        *place = *slot;
    }
    copy
}

// Prints what is lent of a sample, its walk, a run, and a run of half the walk, each on slots of its own.
pub(crate) fn trace(rt: &impl Print, sample: &Sample) -> io::Result<()> {
    let method = &sample.method;
    print_bytes(rt, b"code", method.code)?;
    print_list(rt, b"kinds", method.kinds, |kind| print!(rt; " {kind}"))?;
    print_words(rt, b"words", method.words)?;
    print_bytes(rt, b"handlers", method.handlers)?;
    let s = sample.state;
    let mut lent = [0; 12];
    let steps = print_walk(rt, method, copied(&mut lent, sample.slots), s)?;
    print_run(rt, method, copied(&mut lent, sample.slots), s, BUDGET)?;
    print_run(rt, method, copied(&mut lent, sample.slots), s, steps / 2)
}
