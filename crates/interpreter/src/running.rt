// A run: ordinary steps, one after the other, up to a budget.
ghost use Rattle.std.specs.Prelude.{◌≡◌, length};
ghost use Rattle.rules.specs.Lent.{lent};
ghost use Rattle.rules.specs.Questions.{frame_check};
ghost use Rattle.rules.specs.Step.{core_machine};
ghost use Rattle.rules.specs.Run.{run_from, run_of, Account};
ghost use Rattle.interpreter.specs.Taken.{ran, end_of, ended_at};

use crate::advancing::advance_framed;
use crate::stepping::{moved, take};
use frame::check_frame;
use return_types::settle;
use rules::{Decision, End, Halt, Method, State};

// The state that a run reached, how many ordinary steps it took, and what ended it.
// It is not `Reached` with a parameter. That was tried and proved, in six lines more, and with one name for a decision before question 32 and for an end.
#[derive(Clone, Copy)]
pub struct Ran {
    pub state: State,
    pub steps: u64,
    pub end: End,
}

// What a decision that is not ordinary ends a run with.
fn end_of(decision: Decision) -> End
    ensures { result ≡ end_of decision }
{
    decision.err()
}

// A run that stands at a state after some steps: its count is 0.
fn ended(s: State, steps: u64, end: End) -> Ran
    ensures { result ≡ ended_at s steps end }
{
    let state = moved(s, s.pc, s.depth, 0);
    Ran { state, steps, end }
}

// At most budget steps, where questions 1 to 3 have passed: all but the last, and then the last. With no budget left there is no further look.
fn run_framed(method: &Method, slots: &mut [u32], s: State, budget: u64) -> Ran
    requires { frame_check (lent method.now) s (length slots.old) ≡ Ok tt }
    ensures { ran result slots.new ≡ run_from (core_machine (lent method.now)) budget 0 s slots.old }
{
    if budget == 0 {
        return ended(s, 0, None);
    }
    let reached = advance_framed(method, slots, s, budget - 1);
    let t = reached.state;
    let Ok(u) = reached.decision else {
        let end = end_of(settle(t.return_type, reached.decision));
        return ended(t, reached.steps, end);
    };
    let state = take(slots, t, u);
    Ran {
        state,
        steps: reached.steps + 1,
        end: None,
    }
}

// A run on any method, slots and state: questions 1 to 3 come first, also with budget 0.
pub fn run(method: &Method, slots: &mut [u32], s: State, budget: u64) -> Ran
    ensures slots_after { ran result slots.new ≡ run_of (core_machine (lent method.now)) budget s slots.old }
    ensures account { Account (core_machine (lent method.now)) budget s slots.old (ran result slots.new) }
{
    let asked = check_frame(method, slots, s);
    match asked {
        Err(refusal) => Ran {
            state: s,
            steps: 0,
            end: Some(Halt::Refused(refusal)),
        },
        Ok(()) => run_framed(method, slots, s, budget),
    }
}
