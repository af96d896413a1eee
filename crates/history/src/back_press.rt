// Back: the last step taken back.
ghost use Rattle.std.specs.Prelude.{ℕ, ◌≡◌, ◌-◌, List, Ok};
ghost use Rattle.rules.specs.Lent.{lent, with_handlers};
ghost use Rattle.rules.specs.History.{entry_at, back_check, back_of};
ghost use Rattle.history.specs.Left.{IsEntry, asked, pressed};

use crate::forward_press::PressResult;
use crate::undo_log::{Entry, read_entry};
use frame::check_frame;
use rules::{Halt, Method, Refusal, State};

// The questions of back, whatever the handlers are: 1 to 3, then whether there is a step to take back, and whether its entry stands in the log and is sound. It gives the
// entry.
fn check_back(method: &Method, slots: &[u32], log: &[u32], s: State) -> Result<Entry, Refusal>
    ensures asked { (handlers : List ℕ) → asked result ≡ back_check (with_handlers handlers (lent method.now)) s slots.now log.now }
    ensures is_entry { (e : Entry) → result ≡ Ok e → IsEntry e log.now (entry_at (s.count - 1)) }
{
    check_frame(method, slots, s)?;
    if s.count == 0 {
        return Err(Refusal::NothingToTakeBack);
    }
    let Some(entry) = read_entry(log, s.count - 1) else {
        return Err(Refusal::LogEntry);
    };
    if !entry.is_sound(method.code, s) {
        return Err(Refusal::LogEntry);
    }
    Ok(entry)
}

// A press of back on any method, slots, log and state, whatever the handlers are. It changes no log word; one that is not granted writes nothing.
pub fn back(method: &Method, slots: &mut [u32], log: &[u32], s: State) -> PressResult
    ensures { (handlers : List ℕ) → pressed result slots.new log.now ≡ back_of (with_handlers handlers (lent method.now)) s slots.old log.now }
{
    let asked = check_back(method, slots, log, s);
    match asked {
        Err(refusal) => PressResult {
            state: s,
            answer: Err(Halt::Refused(refusal)),
        },
        Ok(entry) => {
            let state = entry.restore(slots, s);
            PressResult {
                state,
                answer: Ok(()),
            }
        }
    }
}
