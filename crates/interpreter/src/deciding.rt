// One step, decided with nothing written: questions 1 to 10 in their order, what the instruction does, the handlers of a throw, and question 32 of a return. `as usize` for a u32: `usize` has no `From<u32>`.
ghost use Rattle.std.specs.Prelude.{◌≡◌, length};
ghost use Rattle.rules.specs.Lent.{lent, plain};
ghost use Rattle.rules.specs.Questions.{frame_check};
ghost use Rattle.rules.specs.Step.{decide_of};
ghost use Rattle.return_types.specs.Settled.{settled};
ghost use Rattle.interpreter.specs.Stages.{located_decision};

use crate::catching::ask_handlers;
use crate::finishing::locate;
use crate::instruction::Instruction;
use effects::effect;
use frame::{check_frame, place};
use instructions::decode;
use return_types::settle;
use rules::{Decision, Method, State};

impl Instruction<'_> {
    // Question 9, what the instruction does, and question 10.
    #[tactic(auto, unfolding(crate::specs::Stages::located_decision))]
    fn decide(&self, slots: &[u32]) -> Decision
        ensures { result ≡ located_decision (plain (lent self.now.method.now)) slots.now self.now.pc self.now.located }
    {
        let w = self.words(slots)?;
        let does = effect(self.located.op, self.located.constant, w);
        self.finish(w.a, does)
    }
}

// Questions 4 to 10 of a method as if it had no handlers, where questions 1 to 3 have passed; a return is not asked question 32 yet.
pub(crate) fn decide_framed(method: &Method, slots: &[u32], s: State) -> Decision
    requires { frame_check (plain (lent method.now)) s (length slots.now) ≡ Ok tt }
    ensures { settled s.return_type result ≡ decide_of (plain (lent method.now)) s slots.now }
{
    let decoded = decode(method.code, s.pc)?;
    let placed = place(decoded.entry, decoded.index, s)?;
    let next = s.pc as usize + decoded.size;
    let i = Instruction {
        method,
        pc: s.pc,
        located: locate(decoded, next, placed),
    };
    i.decide(slots)
}

// One step on any method, slots and state.
pub fn decide(method: &Method, slots: &[u32], s: State) -> Decision
    ensures { result ≡ decide_of (lent method.now) s slots.now }
{
    check_frame(method, slots, s)?;
    let decision = decide_framed(method, slots, s);
    let decision = ask_handlers(method, s, decision);
    settle(s.return_type, decision)
}
