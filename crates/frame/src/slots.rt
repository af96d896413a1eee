// The slots of a frame: the locals, and after them the operand stack. `as usize` for a u32: `usize` has no `From<u32>`.
ghost use Rattle.std.specs.Prelude.{◌≡◌};
ghost use Rattle.rules.specs.Step.{written};
ghost use Rattle.frame.specs.Writable.{Writable};

use crate::words::write_update;
use rules::{State, Update, frame_size};

// Writes an ordinary step's words: into the locals, or else into the stack. The stack is lent on as a part (a rule of the project), so that what writes on it can
// reach no local, nor a slot past the frame.
pub fn commit(slots: &mut [u32], s: State, u: Update)
    requires { Writable u s slots.old }
    ensures { slots.new ≡ written u slots.old }
{
    let locals = usize::from(s.max_locals);
    let first = u.first as usize;
    if first < locals {
        write_update(slots, first, u);
        return;
    }
    write_update(
        &mut slots[locals..frame_size(s.max_locals, s.max_stack)],
        first - locals,
        u,
    );
}
