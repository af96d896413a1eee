// A method walked step by step (RULES, 'The printed walk').
ghost use Rattle.std.specs.Prelude.{◌≡◌, ◌≤◌, IfOk};
ghost use Rattle.rules.specs.Lent.{lent};
ghost use Rattle.rules.specs.Run.{run_of};
ghost use Rattle.rules.specs.Step.{core_machine};
ghost use Rattle.interpreter.specs.Taken.{ran};

use interpreter::{Ran, decide, run, step};
use rules::{Method, State, get_or};
use std::io;

// Prints the line of an ordinary step: the steps before it, and the offset, the opcode, the depth and the word on top where it begins.
fn print_step(rt: &impl Print, steps: u64, code: &[u8], slots: &[u32], s: State) -> io::Result<()> {
    // `usize` has no `From<u32>`, here and for the depth
    let opcode = get_or(code, s.pc as usize, 0);
    print!(rt; "{steps} {} {opcode} {}", s.pc, s.depth)?;
    if s.depth == 0 {
        return println!(rt; " -");
    }
    let place = usize::from(s.max_locals) + s.depth as usize - 1;
    let top = get_or(slots, place, 0);
    println!(rt; " {top:08X}")
}

// Walks at most so many steps from a state on, prints a line for each ordinary one, and gives and leaves what a run of so many steps does.
pub fn walk(
    rt: &impl Print,
    method: &Method,
    slots: &mut [u32],
    s: State,
    most: u64,
) -> io::Result<Ran>
    ensures limit { IfOk result (λ walked. walked.steps ≤ most) }
    ensures run { IfOk result (λ walked. ran walked slots.new ≡ run_of (core_machine (lent method.now)) most s slots.old) }
{
    println!(rt; "step pc op depth top")?;
    // no step yet: questions 1 to 3 alone, and the state without its count
    let start = run(method, slots, s, 0);
    if start.end.is_some() {
        return Ok(start);
    }
    let mut state = start.state;
    for steps in 0..most {
        if let Err(halt) = decide(method, slots, state) {
            let end = Some(halt);
            return Ok(Ran { state, steps, end });
        }
        print_step(rt, steps, method.code, slots, state)?;
        state = step(method, slots, state).state;
    }
    Ok(Ran {
        state,
        steps: most,
        end: None,
    })
}
