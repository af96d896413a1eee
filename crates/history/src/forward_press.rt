// Forward: a step with history.
ghost use Rattle.std.specs.Prelude.{◌≡◌, length};
ghost use Rattle.rules.specs.Lent.{lent};
ghost use Rattle.rules.specs.Step.{core_machine};
ghost use Rattle.frame.specs.Writable.{Writable};
ghost use Rattle.rules.specs.History.{log_check, granted_by, pressed_by, forward_of};
ghost use Rattle.history.specs.Left.{pressed};

use crate::undo_log::{entries, write_entry};
use frame::commit;
use interpreter::{advance, moved};
use return_types::settle;
use rules::{Decision, Halt, Method, Pressed, Refusal, State, Update};

// The state after a press, and its answer: no Result, for a press that is not granted has the state that it got (RULES, 'Outcomes').
#[derive(Clone, Copy)]
pub struct PressResult {
    pub state: State,
    pub answer: Pressed,
}

// Question 11; then the undo record is written, and the step committed.
fn grant(slots: &mut [u32], log: &mut [u32], s: State, u: Update) -> PressResult
    requires { Writable u s slots.old }
    ensures { pressed result slots.new log.new ≡ granted_by s slots.old log.old 0 u (log_check s.count (length log.old)) }
{
    if entries(log) <= s.count {
        return PressResult {
            state: s,
            answer: Err(Halt::Refused(Refusal::LogFull)),
        };
    }
    write_entry(slots, log, s, u);
    commit(slots, s, u);
    let state = moved(s, u.pc, u.depth, s.count + 1);
    PressResult {
        state,
        answer: Ok(()),
    }
}

// A step's decision as a press.
pub fn pressed_by(decision: Decision) -> Pressed
    ensures { result ≡ pressed_by decision }
{
    decision.map(|_| ())
}

// A press of forward on any method, slots, log and state. One that is not granted writes nothing.
pub fn forward(method: &Method, slots: &mut [u32], log: &mut [u32], s: State) -> PressResult
    ensures { pressed result slots.new log.new ≡ forward_of (core_machine (lent method.now)) s slots.old log.old }
{
    let reached = advance(method, slots, s, 0);
    let decision = reached.decision;
    match decision {
        Ok(u) => grant(slots, log, s, u),
        Err(_) => PressResult {
            state: s,
            answer: pressed_by(settle(s.return_type, decision)),
        },
    }
}
