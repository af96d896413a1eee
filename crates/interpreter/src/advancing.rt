// Ordinary steps, one after the other, and the decision of the next: the loop of `run_until_exception_or_return` (interpreter.rs). A step, a press of
// forward and a run all come through here, so that the decision of a step is compiled into one loop.
ghost use Rattle.std.specs.Prelude.{◌≡◌, length, ◌-◌, ◌≤◌};
ghost use Rattle.rules.specs.Lent.{lent, plain};
ghost use Rattle.rules.specs.Questions.{frame_check};
ghost use Rattle.interpreter.specs.Advance.{advance_from};
ghost use Rattle.interpreter.specs.Taken.{reached};

use crate::catching::ask_handlers;
use crate::deciding::decide_framed;
use crate::stepping::take;
use frame::check_frame;
use rules::{Decision, Halt, Method, State};

// The state that ordinary steps led to, how many they were, and what the next step comes to; nothing of that is written. A return has not been asked question 32 yet:
// `settle` asks it where a step, a press or a run ends with one, and no turn of the loop has to.
#[derive(Clone, Copy)]
pub struct Reached {
    pub state: State,
    pub steps: u64,
    pub decision: Decision,
}

// Steps of a method as if it had no handlers, up to a number of which some are taken already, where questions 1 to 3 have passed. They stay passed, and are asked no more.
// That they have passed stands in four contracts of this crate and in no type: it is a fact of a method, a state and the slots' length together, and a struct of the three would
// hold the slots as `&mut` and promise, field by field, in each contract, that it still holds the same.
fn advance_plain(method: &Method, slots: &mut [u32], s: State, taken: u64, most: u64) -> Reached
    requires slots_value { frame_check (plain (lent method.now)) s (length slots.old) ≡ Ok tt }
    requires taken_le_most { taken ≤ most }
    ensures { reached result slots.new ≡ advance_from (plain (lent method.now)) (most - taken) taken s slots.old }
{
    // a copy, which no write of a slot can reach: so its parts are read once, and not at every step
    let own = *method;
    let mut t = s;
    let mut steps = taken;
    loop {
        let reached = Reached {
            state: t,
            steps,
            decision: decide_framed(&own, slots, t),
        };
        let Ok(u) = reached.decision else {
            return reached;
        };
        if steps == most {
            return reached;
        }
        t = take(slots, t, u);
        steps += 1;
    }
}

// At most so many steps, where questions 1 to 3 have passed. Without handlers they are plain ones; with them, a throw that ended plain steps may be caught, and then more
// of them follow.
pub(crate) fn advance_framed(method: &Method, slots: &mut [u32], s: State, most: u64) -> Reached
    requires { frame_check (lent method.now) s (length slots.old) ≡ Ok tt }
    ensures slots_after { reached result slots.new ≡ advance_from (lent method.now) most 0 s slots.old }
    ensures steps_le_most { result.steps ≤ most }
{
    if method.handlers.is_empty() {
        return advance_plain(method, slots, s, 0, most);
    }
    let mut t = s;
    let mut steps: u64 = 0;
    loop {
        let plain = advance_plain(method, slots, t, steps, most);
        let reached = Reached {
            decision: ask_handlers(method, plain.state, plain.decision),
            ..plain
        };
        let Ok(u) = reached.decision else {
            return reached;
        };
        if reached.steps == most {
            return reached;
        }
        t = take(slots, reached.state, u);
        steps = reached.steps + 1;
    }
}

// At most so many steps on any method, slots and state; with 0, the decision alone. Without handlers a press of forward is spared the call of `advance_framed`: with
// the call alone it was tried, and took 35.4 machine instructions more.
pub fn advance(method: &Method, slots: &mut [u32], s: State, most: u64) -> Reached
    ensures { reached result slots.new ≡ advance_from (lent method.now) most 0 s slots.old }
{
    let asked = check_frame(method, slots, s);
    match asked {
        Err(refusal) => Reached {
            state: s,
            steps: 0,
            decision: Err(Halt::Refused(refusal)),
        },
        Ok(()) => {
            if method.handlers.is_empty() {
                return advance_plain(method, slots, s, 0, most);
            }
            advance_framed(method, slots, s, most)
        }
    }
}
