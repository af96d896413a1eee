// A run beside a list of presses: both must end at the same place.
use crate::memory::Memory;
use interpreter::{Ran, run};
use printing::Ending;
use rules::{Loaded, State};
use std::io;

// Runs so many steps on the other slots, from what a load left.
fn run_loaded(sheet: &[u8], memory: &mut Memory, loaded: Loaded, budget: u64) -> Ran {
    let method = memory.pool.method(sheet, loaded);
    run(&method, memory.others, loaded.state, budget)
}

// Prints a run, and whether it ended at the offset, the depth and the slots that a list left.
fn print_beside(rt: &impl Print, memory: &Memory, left: State, ran: Ran) -> io::Result<()> {
    println!(rt;
        "run {} {} {}",
        left.count,
        ran.steps,
        Ending(ran.end).name()
    )?;
    let is_same_state = left.pc == ran.state.pc && left.depth == ran.state.depth;
    let is_same = is_same_state && &*memory.slots == &*memory.others;
    println!(rt; "{}", if is_same { "same" } else { "differs" })
}

// Loads a sheet into the other slots, and runs there as many steps as a list's count.
pub(crate) fn run_beside(
    rt: &impl Print,
    sheet: &[u8],
    memory: &mut Memory,
    left: State,
) -> io::Result<()> {
    let Ok(loaded) = memory.pool.load(sheet, memory.others) else {
        return Ok(());
    };
    let ran = run_loaded(sheet, memory, loaded, left.count);
    print_beside(rt, memory, left, ran)
}
