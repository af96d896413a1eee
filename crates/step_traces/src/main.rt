// Walks sample methods from standard input step by step, runs them, and prints what each step and each run comes to.
// judge/src/lists/methods.rs writes the samples and says how a line is laid out; judge/src/lists/traces.rs writes what must be printed.
#![tactic(auto)]

mod fields;
mod walking;

use crate::fields::{Line, sample_of};
use crate::walking::trace;
use printing::first_word;
use reading::read_record;
use std::io;

// More lines than any file of samples has: the loop over them has to end.
const MOST: u64 = 1_000_000;

// Prints the name at the start of a line.
fn print_name(rt: &impl Print, line: &Line) -> io::Result<()> {
    print!(rt; "method ")?;
    rt.write_all(first_word(&line[..40]))?;
    println!(rt)
}

// Traces each sample, in memory as long as a line's parts need.
fn main(rt: HostRuntime) -> io::Result<()> {
    let mut code = [0; 64];
    let mut kinds = [0; 8];
    let mut words = [0; 8];
    let mut handlers = [0; 40];
    let mut slots = [0; 12];
    let mut stdin = rt.stdin();
    for _ in 0..MOST {
        let Some(line) = read_record(&mut stdin, b' ')? else {
            break;
        };
        print_name(&rt, &line)?;
        let sample = sample_of(
            &line,
            &mut code,
            &mut kinds,
            &mut words,
            &mut handlers,
            &mut slots,
        );
        trace(&rt, &sample)?;
        println!(rt)?;
    }
    Ok(())
}
