// Runs methods whose answers come from outside, and prints how each ends: those that a Java virtual machine gave, those that the Rust gave, and those
// that docs/DIFFERENCES.md says are owed. tools/original/answers writes the methods and what must be printed.
#![tactic(auto)]

mod ends;

use crate::ends::print_line;
use interpreter::run;
use reading::{read_bytes_into, read_record};
use std::io;
use walks::LentMemory;

// More methods than any file has, and more steps than any that ends takes.
const MOST: u64 = 1_000_000;

const BUDGET: u64 = 10_000_000;

// Loads a sheet, and runs its method; the bits of a NaN are shown only if they are asked for.
fn trial(rt: &impl Print, sheet: &[u8], memory: &mut LentMemory, bits: bool) -> io::Result<()> {
    match memory.pool.load(sheet, memory.slots) {
        Err(refusal) => println!(rt; "sheet {}", refusal.number()),
        Ok(loaded) => {
            let method = memory.pool.method(sheet, loaded);
            let ran = run(&method, memory.slots, loaded.state, BUDGET);
            print_line(rt, ran.end, bits)
        }
    }
}

// Reads each sheet of at most 8,192 bytes and tries it. Of four bytes the first says whether the bits of a NaN are to be shown, and the others how long
// the sheet is, the high ones first.
fn main(rt: HostRuntime) -> io::Result<()> {
    let mut bytes = [0; 8192];
    let mut slots = [0; 131072];
    let mut kinds = [0; 65536];
    let mut words = [0; 65536];
    let mut stdin = rt.stdin();
    for _ in 0..MOST {
        let Some(head) = read_record::<_, 4>(&mut stdin, 0)? else {
            break;
        };
        let [bits, high, middle, low] = head;
        // `usize` has no `From<u32>`
        let length = u32::from_be_bytes([0, high, middle, low]) as usize;
        if length > bytes.len() {
            continue;
        }
        let sheet = read_bytes_into(&mut stdin, &mut bytes[..length])?;
        let mut memory = LentMemory::zeroed(&mut slots, &mut kinds, &mut words);
        trial(&rt, sheet, &mut memory, bits > 0)?;
    }
    Ok(())
}
