// EX records: the handlers of the method (JVMS 4.7.3).
ghost use Rattle.std.specs.Prelude.{◌≡◌};
ghost use Rattle.rules.specs.declared.sheets.Mark.TheVariants.{EX};
ghost use Rattle.rules.specs.Sheet.{is_catch_type, contents_read};
ghost use Rattle.sheet.specs.Rows.{is_handler};

use crate::records::{NextRecord, constants};
use rules::handler_fields::*;
use rules::{Mark, Reading, Refusal};

// Whether a catch type is 0 or the index of a class, of which the KI records between the code and the handlers say which they are.
fn is_catch_type(next: &NextRecord, catch_type: u16) -> bool
    ensures { result ≡ is_catch_type next.now.record.sheet.now next.now.before catch_type }
{
    if catch_type == 0 {
        return true;
    }
    constants(next.record.sheet, &next.before).has_class(catch_type)
}

// Eight bytes; start below end; start and handler inside the code, and end at most its length; a catch type.
fn is_handler(next: &NextRecord) -> bool
    ensures { result ≡ is_handler next.now.record.sheet.now next.now.record.at next.now.before }
{
    let start = next.record.u16_at(START_PC);
    let end = next.record.u16_at(END_PC);
    next.record.body_length() == 8
        && start < end
        && usize::from(start) < next.before.code_length
        && usize::from(next.record.u16_at(HANDLER_PC)) < next.before.code_length
        && usize::from(end) <= next.before.code_length
        && is_catch_type(next, next.record.u16_at(CATCH_TYPE))
}

// EX: nothing but that the record has been read; where the handlers begin is known from the record before them.
pub(crate) fn read_handler(next: &NextRecord) -> Result<Reading, Refusal>
    ensures { result ≡ contents_read next.now.record.sheet.now next.now.record.at next.now.before EX }
{
    if !is_handler(next) {
        return Err(Refusal::HandlerRecord);
    }
    Ok(Reading {
        last: Some(Mark::EX),
        ..next.before
    })
}
