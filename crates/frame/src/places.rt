// Questions 6 to 8: what an instruction needs of the stack and of the locals, from its entry in the table.
ghost use Rattle.std.specs.Prelude.{◌≡◌};
ghost use Rattle.frame.specs.Place.{local_there, place_of};

use instructions::Entry;
use rules::{Refusal, State};

// The first place of an instruction on the stack, counted from the first local, and the new depth.
#[derive(Clone, Copy)]
pub struct Placed {
    pub base: u32,
    pub depth: u32,
}

// Whether all places of a local, if there are any, are below the limit.
fn local_there(places: u32, index: u32, limit: u16) -> bool
    ensures { result ≡ local_there places index limit }
{
    places == 0 || u64::from(index) + u64::from(places) <= u64::from(limit)
}

// Questions 6 to 8 for an instruction with its index.
pub fn place(entry: Entry, index: u32, s: State) -> Result<Placed, Refusal>
    ensures { result ≡ place_of entry index s }
{
    let pops = u32::from(entry.pops);
    let pushes = u32::from(entry.pushes);
    let locals = u32::from(entry.locals);
    if s.depth < pops {
        return Err(Refusal::StackUnderflow);
    }
    let left = s.depth - pops;
    if u64::from(left) + u64::from(pushes) > u64::from(s.max_stack) {
        return Err(Refusal::StackOverflow);
    }
    if !local_there(locals, index, s.max_locals) {
        return Err(Refusal::Local);
    }
    Ok(Placed {
        base: u32::from(s.max_locals) + left,
        depth: left + pushes,
    })
}
