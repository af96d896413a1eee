// The undo log: an entry of ten words for each step that can be taken back.
// `as usize` for a u32 or a u64: `usize` has no `From` of either.
ghost use Rattle.std.specs.Prelude.{ℕ, List, ◌≡◌, ◌+◌, ◌-◌, ◌/◌, ◌≤◌, ◌<◌, length, take, drop};
ghost use Rattle.std.proofs.Math.Seq.{paste};
ghost use Rattle.rules.specs.Check.{is_passed};
ghost use Rattle.rules.specs.History.{entry_at, undo_record, entry_check, restored};
ghost use Rattle.frame.specs.Writable.{Writable};
ghost use Rattle.history.specs.Left.{IsEntry, EntryAt, taken_back};

use frame::write_words;
use interpreter::moved;
use rules::{State, Update, frame_size};

// The words of an entry: offset, depth, first place, how many, and six old words.
const ENTRY: usize = 10;

// How many whole entries the log has.
pub(crate) fn entries(log: &[u32]) -> u64
    ensures { result ≡ length log.now / 10 }
{
    (log.len() / ENTRY) as u64
}

// Writes the undo record of a step that is to be taken, with the old words of the places that it writes; six words, 0 past those.
pub(crate) fn write_entry(slots: &[u32], log: &mut [u32], s: State, u: Update)
    requires { Writable u s slots.now × (entry_at s.count + 10 ≤ length log.old) }
    ensures { log.new ≡ paste log.old (entry_at s.count) (undo_record s.pc s.depth u.first u.many slots.now) 10 }
{
    let first = u.first as usize;
    let many = u.many as usize;
    let mut entry = [s.pc, s.depth, u.first, u.many, 0, 0, 0, 0, 0, 0];
    entry[4..4 + many].copy_from_slice(&slots[first..first + many]);
    let at = ENTRY * s.count as usize;
    write_words(log, at, &entry);
}

// An entry: where a step began, the places that it wrote, and six words, of which the first are the old ones of those places. They are an array of its own:
// copied to the slots from a part of the log they would ask C for memmove.
#[derive(Clone, Copy)]
pub(crate) struct Entry {
    pc: u32,
    depth: u32,
    first: u32,
    many: u32,
    old: [u32; 6],
}

// The six words of an entry after its first four.
fn old_words(entry: &[u32]) -> [u32; 6]
    requires { 10 ≤ length entry.now }
    ensures { result ≡ take 6 (drop 4 entry.now) }
{
    *entry[4..].first_chunk().unwrap()
}

// The entry at an index, if the log has all its words.
pub(crate) fn read_entry(log: &[u32], n: u64) -> Option<Entry>
    ensures { EntryAt result log.now (entry_at n) }
{
    let (entries, _) = log.as_chunks::<ENTRY>();
    let entry = entries.get(n as usize)?;
    let [pc, depth, first, many, ..] = *entry;
    Some(Entry {
        pc,
        depth,
        first,
        many,
        old: old_words(entry),
    })
}

impl Entry {
    // Whether it has its offset in the code, its depth at most max_stack, and at most six places, all in the frame.
    pub(crate) fn is_sound(self, code: &[u8], s: State) -> bool
        ensures { (log : List ℕ) (k : ℕ) → IsEntry self log k → result ≡ is_passed (entry_check code.now s log k) }
    {
        if code.len() <= self.pc as usize || self.depth > u32::from(s.max_stack) || self.many > 6 {
            return false;
        }
        let size = frame_size(s.max_locals, s.max_stack) as u64;
        self.many == 0 || u64::from(self.first) + u64::from(self.many) <= size
    }

    // Takes the last step back. Where it has no places its first place is not looked at.
    pub(crate) fn restore(self, slots: &mut [u32], s: State) -> State
        requires count_nonzero { 0 < s.count }
        requires count_bound { self.many ≤ length self.old }
        requires count_in_bounds { 0 < self.many → self.first + self.many ≤ length slots.old }
        ensures { (log : List ℕ) → IsEntry self log (entry_at (s.count - 1)) → taken_back result slots.new log ≡ restored s slots.old log (entry_at (s.count - 1)) }
    {
        if self.many > 0 {
            let first = self.first as usize;
            write_words(slots, first, &self.old[..self.many as usize]);
        }
        moved(s, self.pc, self.depth, s.count - 1)
    }
}
