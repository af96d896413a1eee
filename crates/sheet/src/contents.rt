// What a record of each mark is asked, and what it adds to what has been read.
ghost use Rattle.std.specs.Prelude.{◌≡◌};
ghost use Rattle.rules.specs.declared.sheets.Mark.TheVariants.{LM, DS, CD, KI, AR};
ghost use Rattle.rules.specs.Sheet.{are_taken, contents_check, contents_read};
ghost use Rattle.sheet.specs.Rows.{is_constant};

use crate::marks::{tag_suits, word_suits};
use crate::records::NextRecord;
use descriptor::read_descriptor;
use rules::{Mark, Reading, Refusal};

// Where the two sizes of an LM record lie.
const MAX_STACK: usize = 4;

const MAX_LOCALS: usize = 6;

// LM: the two sizes.
pub(crate) fn read_sizes(next: &NextRecord) -> Result<Reading, Refusal>
    ensures { result ≡ contents_read next.now.record.sheet.now next.now.record.at next.now.before LM }
{
    Ok(Reading {
        last: Some(Mark::LM),
        max_stack: next.record.u16_at(MAX_STACK),
        max_locals: next.record.u16_at(MAX_LOCALS),
        ..next.before
    })
}

// DS: the places of the parameters, and the return type.
pub(crate) fn read_types(next: &NextRecord) -> Result<Reading, Refusal>
    ensures { result ≡ contents_read next.now.record.sheet.now next.now.record.at next.now.before DS }
{
    let descriptor = read_descriptor(next.record.descriptor())?;
    Ok(Reading {
        last: Some(Mark::DS),
        descriptor: Some(descriptor),
        ..next.before
    })
}

// CD: where the code lies.
pub(crate) fn read_code(next: &NextRecord) -> Result<Reading, Refusal>
    ensures { result ≡ contents_read next.now.record.sheet.now next.now.record.at next.now.before CD }
{
    Ok(Reading {
        last: Some(Mark::CD),
        code: next.record.body(),
        code_length: usize::from(next.record.body_length()),
        handlers: next.record.end(),
        ..next.before
    })
}

// KI: its tag, the word of a class, and its indices above all used.
fn is_constant(next: &NextRecord) -> bool
    ensures { result ≡ is_constant next.now.record.sheet.now next.now.record.at next.now.before }
{
    let tag = next.record.tag();
    tag_suits(tag, next.record.body_length())
        && word_suits(tag, next.record.word())
        && next.before.used.unwrap_or(0) < u32::from(next.record.pool_index())
        && next.record.last_index() <= 65535
}

// KI: a constant, and the last index that it uses.
pub(crate) fn read_constant(next: &NextRecord) -> Result<Reading, Refusal>
    ensures { result ≡ contents_read next.now.record.sheet.now next.now.record.at next.now.before KI }
{
    if !is_constant(next) {
        return Err(Refusal::ConstantRecord);
    }
    Ok(Reading {
        last: Some(Mark::KI),
        used: Some(next.record.last_index()),
        handlers: next.record.end(),
        ..next.before
    })
}

// Whether a number of argument words is what the descriptor's parameters take, if there is a descriptor.
fn are_taken(p: &Reading, count: u16) -> bool
    ensures { result ≡ are_taken p.now.descriptor count }
{
    p.descriptor
        .is_none_or(|descriptor| u32::from(count) == descriptor.places)
}

// AR: at most as many words as there are locals, and as many as the parameters take.
fn check_arguments(next: &NextRecord) -> Result<(), Refusal>
    ensures { result ≡ contents_check next.now.record.sheet.now next.now.record.at next.now.before AR }
{
    let count = next.record.body_length() / 4;
    if count > next.before.max_locals {
        return Err(Refusal::TooManyArguments);
    }
    if !are_taken(&next.before, count) {
        return Err(Refusal::Descriptor);
    }
    Ok(())
}

// AR: where the argument words lie.
pub(crate) fn read_arguments(next: &NextRecord) -> Result<Reading, Refusal>
    ensures { result ≡ contents_read next.now.record.sheet.now next.now.record.at next.now.before AR }
{
    check_arguments(next)?;
    Ok(Reading {
        last: Some(Mark::AR),
        arguments: next.record.body(),
        argument_count: usize::from(next.record.body_length()) / 4,
        ..next.before
    })
}
