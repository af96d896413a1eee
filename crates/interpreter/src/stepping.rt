// One step, taken: decided, and then written in one place.
ghost use Rattle.std.specs.Prelude.{◌≡◌};
ghost use Rattle.frame.specs.Writable.{Writable};
ghost use Rattle.rules.specs.Lent.{lent};
ghost use Rattle.rules.specs.Step.{core_machine, moved, step_of, written};
ghost use Rattle.interpreter.specs.Taken.{stepped};

use crate::advancing::advance;
use frame::commit;
use return_types::settle;
use rules::{Decision, Method, State, Update};

// The state after a step, and what the step came to. It is not `Reached`, whose steps would say again what the decision says: whether the step was taken.
#[derive(Clone, Copy)]
pub struct Stepped {
    pub state: State,
    pub decision: Decision,
}

// The state at another offset, depth and count. Every state after a step is made here.
pub fn moved(s: State, pc: u32, depth: u32, count: u64) -> State
    ensures { result ≡ moved s pc depth count }
{
    State {
        pc,
        depth,
        count,
        ..s
    }
}

// An ordinary step, taken: its words are written, and the count is 0.
pub(crate) fn take(slots: &mut [u32], s: State, u: Update) -> State
    requires { Writable u s slots.old }
    ensures state_after { result ≡ moved s u.pc u.depth 0 }
    ensures slots_after { slots.new ≡ written u slots.old }
{
    commit(slots, s, u);
    moved(s, u.pc, u.depth, 0)
}

// A step without history on any method, slots and state: an ordinary one moves the state, with count 0, and writes its words; any other changes nothing.
pub fn step(method: &Method, slots: &mut [u32], s: State) -> Stepped
    ensures { stepped result slots.new ≡ step_of (core_machine (lent method.now)) s slots.old }
{
    let reached = advance(method, slots, s, 0);
    let decision = reached.decision;
    let Ok(u) = decision else {
        return Stepped {
            state: s,
            decision: settle(s.return_type, decision),
        };
    };
    let state = take(slots, s, u);
    Stepped { state, decision }
}
