// Prints the walk of a sheet that stands on standard input (RULES, 'The printed walk').
#![tactic(auto)]

use printing::Ending;
use reading::read_full;
use std::io;
use walks::{LentMemory, walk};

// The most steps that are walked.
const MOST: u64 = 1600;

// Loads a sheet, and walks its method from what the load left.
fn walk_sheet(rt: &impl Print, sheet: &[u8], memory: &mut LentMemory) -> io::Result<()> {
    match memory.pool.load(sheet, memory.slots) {
        Err(refusal) => println!(rt; "sheet {}", refusal.number()),
        Ok(loaded) => {
            let method = memory.pool.method(sheet, loaded);
            let walked = walk(rt, &method, memory.slots, loaded.state, MOST)?;
            println!(rt; "{}", Ending(walked.end))
        }
    }
}

// Reads at most 65,536 bytes, and walks their sheet.
fn main(rt: HostRuntime) -> io::Result<()> {
    let mut bytes = [0; 65536];
    let count = read_full(&mut rt.stdin(), &mut bytes)?;
    let mut slots = [0; 8192];
    let mut kinds = [0; 4096];
    let mut words = [0; 4096];
    let mut memory = LentMemory::zeroed(&mut slots, &mut kinds, &mut words);
    walk_sheet(&rt, &bytes[..count], &mut memory)
}
