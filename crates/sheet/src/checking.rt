// The whole sheet, record by record, and the memory that its method asks for. `as usize` for a u32: `usize` has no `From<u32>`.
ghost use Rattle.std.specs.Prelude.{◌≡◌, ◌+◌, ◌≤◌};
ghost use Rattle.rules.specs.Sheet.{contents_read, marked_check, record_check, unread, sheet_check};
ghost use Rattle.sheet.specs.Rows.{is_enough};

use crate::contents::{read_arguments, read_code, read_constant, read_sizes, read_types};
use crate::handler_records::read_handler;
use crate::marks::{ends_sheet, known_mark, may_follow, right_length};
use crate::records::{NextRecord, Record, Records};
use rules::{MAX_POOL, Mark, Reading, Refusal, frame_size};

// What a record of this mark says, where its contents are good.
fn read_contents(next: &NextRecord, mark: Mark) -> Result<Reading, Refusal>
    ensures { result ≡ contents_read next.now.record.sheet.now next.now.record.at next.now.before mark }
{
    match mark {
        Mark::LM => read_sizes(next),
        Mark::DS => read_types(next),
        Mark::CD => read_code(next),
        Mark::KI => read_constant(next),
        Mark::EX => read_handler(next),
        Mark::AR => read_arguments(next),
    }
}

// A record whose mark is known: its place, its length and its contents.
fn check_marked(next: &NextRecord, mark: Mark) -> Result<Reading, Refusal>
    ensures { result ≡ marked_check next.now.record.sheet.now next.now.record.at next.now.before mark }
{
    if !may_follow(mark, next.before.last) {
        return Err(Refusal::RecordOrder);
    }
    if !right_length(mark, next.record.body_length()) {
        return Err(Refusal::RecordLength);
    }
    read_contents(next, mark)
}

// The next record, after what has been read before it.
// That the code ends before the handlers is no ghost field of Reading, here and in records.rt: with one, `..next.before` is refused, and its definitions would need the proof.
fn check_record(record: Record, before: Reading) -> Result<Reading, Refusal>
    requires { (before.code + before.code_length ≤ before.handlers) × (before.handlers ≤ record.at) }
    ensures { result ≡ record_check record.entry.sheet.now record.entry.at before }
{
    let length = record.sheet.len();
    if length < record.body() || length < record.end() {
        return Err(Refusal::RecordCut);
    }
    let mark = known_mark(&record.mark())?;
    check_marked(&NextRecord { record, before }, mark)
}

// Nothing read yet.
fn unread() -> Reading
    ensures { result ≡ unread }
{
    Reading::default()
}

// All records, to the end of the bytes: what was read, or the first refusal.
pub fn check_sheet(sheet: &[u8]) -> Result<Reading, Refusal>
    ensures { result ≡ sheet_check sheet.now }
{
    let mut p = unread();
    let records = Records {
        sheet,
        at: 0,
        end: sheet.len(),
    };
    for record in records {
        p = check_record(record, p)?;
    }
    if !ends_sheet(p.last) {
        return Err(Refusal::RecordOrder);
    }
    Ok(p)
}

// Whether the lent memory reaches.
pub(crate) fn is_enough(p: &Reading, slots: &[u32], kinds: &[u8], words: &[u32]) -> bool
    ensures { result ≡ is_enough p.now slots.now kinds.now words.now }
{
    frame_size(p.max_locals, p.max_stack) <= slots.len()
        && p.used.is_none_or(|used| (used as usize) < kinds.len())
        && kinds.len() == words.len()
        && kinds.len() <= MAX_POOL
}
