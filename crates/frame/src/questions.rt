// Questions 1 to 3: whether a frame stands in what is lent. `as usize` for a u32: `usize` has no `From<u32>`.
ghost use Rattle.std.specs.Prelude.{ℕ, ◌≡◌, List, length};
ghost use Rattle.rules.specs.Lent.{lent, with_handlers};
ghost use Rattle.rules.specs.Questions.{frame_check};

use rules::{MAX_POOL, Method, Refusal, State, frame_size};

// The most bytes of a code (JVMS 4.7.3).
const MAX_CODE: usize = 65535;

// Questions 1 to 3, whatever the handlers are.
pub fn check_frame(method: &Method, slots: &[u32], s: State) -> Result<(), Refusal>
    ensures { (handlers : List ℕ) → result ≡ frame_check (with_handlers handlers (lent method.now)) s (length slots.now) }
{
    let code = method.code;
    let kinds = method.kinds;
    let size = frame_size(s.max_locals, s.max_stack);
    if kinds.len() != method.words.len() || kinds.len() > MAX_POOL || slots.len() < size {
        return Err(Refusal::Lengths);
    }
    if code.is_empty() || code.len() > MAX_CODE || code.len() <= s.pc as usize {
        return Err(Refusal::Code);
    }
    if s.depth > u32::from(s.max_stack) {
        return Err(Refusal::Depth);
    }
    Ok(())
}
