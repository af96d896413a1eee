// Makes lists of presses on sheets from standard input, and prints what each press answers, what the list leaves, and whether a run ends there too.
// judge/src/lists/presses writes the samples and what must be printed, and says how both are laid out.
#![tactic(auto)]

mod beside;
mod memory;
mod samples;
mod tally;
mod walking;

use crate::memory::Memory;
use crate::samples::{name_of, read_sample};
use crate::tally::Tally;
use crate::walking::make_list;
use reading::read_record;
use std::io;
use walks::LentPool;

// More samples than any file has: the loop over them has to end.
const MOST: u64 = 100_000;

// Tries each sample, in memory as long as the longest of them needs.
fn main(rt: HostRuntime) -> io::Result<()> {
    let mut sheet = [0; 512];
    let mut log = [0; 1200];
    let mut presses = [0; 1000];
    let mut slots = [0; 64];
    let mut others = [0; 64];
    let mut kinds = [0; 16];
    let mut words = [0; 16];
    let mut answers = [0; 3008];
    let mut tally = Tally::default();
    let mut stdin = rt.stdin();
    for _ in 0..MOST {
        let Some(head) = read_record(&mut stdin, 0)? else {
            break;
        };
        rt.write_all(name_of(&head))?;
        println!(&rt)?;
        let mut sample = read_sample(&mut stdin, &head, &mut sheet, &mut log, &mut presses)?;
        let pool = LentPool {
            kinds: &mut kinds,
            words: &mut words,
        };
        let lent = Memory {
            slots: &mut slots,
            others: &mut others,
            pool,
            answers: &mut answers,
        };
        if let Some(mut memory) = lent.junk(sample.sizes) {
            if sample.is_whole() {
                make_list(&rt, &mut sample, &mut memory, &mut tally)?;
            }
        }
        println!(&rt)?;
    }
    println!(rt; "{tally}")
}
