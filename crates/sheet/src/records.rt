// One record of a sheet, a mark, the length of its body and the body; and the records of a part of a sheet, one after the other.
ghost use Rattle.std.specs.Prelude.{◌≡◌, ◌+◌, ◌≤◌, length};
ghost use Rattle.rules.specs.Fetch.{u8, u16, u32};
ghost use Rattle.rules.specs.Sheet.{descriptor_at, body_at, body_length, record_end, is_wide, pool_index, pool_tag, pool_word, is_class_at, last_index};

use crate::marks::WIDE_CONSTANT;
use operands::{read_code_u8, read_code_u16, read_code_u32};
use rules::Reading;
use rules::tags::CONSTANT_CLASS;

// A record, by the offset of its mark.
#[derive(Clone, Copy)]
pub(crate) struct Record<'a> {
    pub(crate) sheet: &'a [u8],
    pub(crate) at: usize,
    pub ghost inside: { at ≤ length sheet.now },
}

impl<'a> Record<'a> {
    // The two bytes of its mark.
    pub(crate) fn mark(&self) -> [u8; 2]
        ensures { u16 result 0 ≡ u16 self.now.sheet.now self.now.at }
    {
        [
            read_code_u8(self.sheet, self.at),
            read_code_u8(self.sheet, self.at + 1),
        ]
    }

    // The two bytes at an offset from its mark on.
    pub(crate) fn u16_at(&self, offset: usize) -> u16
        requires { offset ≤ 65535 }
        ensures { result ≡ u16 self.now.sheet.now (self.now.at + offset) }
    {
        read_code_u16(self.sheet, self.at + offset)
    }

    // The length of its body.
    pub(crate) fn body_length(&self) -> u16
        ensures { result ≡ body_length self.now.sheet.now self.now.at }
    {
        self.u16_at(2)
    }

    // Where its body begins.
    pub(crate) fn body(&self) -> usize
        ensures { result ≡ body_at self.now.at }
    {
        self.at + 4
    }

    // Where the next record begins.
    pub(crate) fn end(&self) -> usize
        ensures { result ≡ record_end self.now.sheet.now self.now.at }
    {
        self.at + 4 + usize::from(self.body_length())
    }

    // Of a DS record: the method descriptor.
    pub(crate) fn descriptor(&self) -> &'a [u8]
        requires { record_end self.now.sheet.now self.now.at ≤ length self.now.sheet.now }
        ensures { result.now ≡ descriptor_at self.now.sheet.now self.now.at }
    {
        let start = self.body();
        let end = self.end();
        &self.sheet[start..end]
    }

    // Of a KI record: its pool index.
    pub(crate) fn pool_index(&self) -> u16
        ensures { result ≡ pool_index self.now.sheet.now self.now.at }
    {
        self.u16_at(4)
    }

    // Of a KI record: its tag.
    pub(crate) fn tag(&self) -> u8
        ensures { result ≡ pool_tag self.now.sheet.now self.now.at }
    {
        read_code_u8(self.sheet, self.at + 6)
    }

    // Of a KI record: the first word of its value.
    pub(crate) fn word(&self) -> u32
        ensures { result ≡ pool_word self.now.sheet.now self.now.at }
    {
        read_code_u32(self.sheet, self.at + 7)
    }

    // Of a KI record: the second word, where its value has two.
    pub(crate) fn second_word(&self) -> u32
        ensures { result ≡ u32 self.now.sheet.now (body_at self.now.at + 7) }
    {
        read_code_u32(self.sheet, self.at + 11)
    }

    // Of a KI record: whether its value has two words.
    pub(crate) fn is_wide(&self) -> bool
        ensures { result ≡ is_wide self.now.sheet.now self.now.at }
    {
        self.body_length() == WIDE_CONSTANT
    }

    // Of a KI record: the last pool index that it uses. A long or a double uses two.
    pub(crate) fn last_index(&self) -> u32
        ensures { result ≡ last_index self.now.sheet.now self.now.at }
    {
        let index = u32::from(self.pool_index());
        if self.is_wide() { index + 1 } else { index }
    }

    // Of a KI record: whether it is that of a class with this index.
    pub(crate) fn is_class_at(&self, index: u16) -> bool
        ensures { result ≡ is_class_at self.now.sheet.now self.now.at index }
    {
        self.pool_index() == index && self.tag() == CONSTANT_CLASS
    }
}

// The records from an offset on up to an end.
#[derive(Clone, Copy)]
pub(crate) struct Records<'a> {
    pub(crate) sheet: &'a [u8],
    pub(crate) at: usize,
    pub(crate) end: usize,
    pub ghost within: { end ≤ length sheet.now },
}

// The records between the code and the handlers of what was read, which are its constants.
pub(crate) fn constants<'a>(sheet: &'a [u8], p: &Reading) -> Records<'a>
    requires { (p.now.code + p.now.code_length ≤ p.now.handlers) × (p.now.handlers ≤ length sheet.now) }
    ensures sheet { result.sheet.now ≡ sheet.now }
    ensures at { result.at ≡ p.now.code + p.now.code_length }
    ensures end { result.end ≡ p.now.handlers }
{
    Records {
        sheet,
        at: p.code + p.code_length,
        end: p.handlers,
    }
}

impl<'a> Iterator for Records<'a> {
    ghost use Rattle.std.specs.Prelude.{◌-◌};
    ghost use Rattle.std.specs.Iterator.{at_most};
    ghost use Rattle.sheet.specs.Records.{GivesRecord};

    type Item = Record<'a>;

    ghost next_gives = { GivesRecord };

    ghost remaining = { λ s. at_most (s.end - s.at) };

    fn next(&mut self) -> Option<Record<'a>> {
        if self.end <= self.at {
            return None;
        }
        let record = Record {
            sheet: self.sheet,
            at: self.at,
        };
        self.at = record.end();
        Some(record)
    }
}

impl Records<'_> {
    ghost use Rattle.sheet.specs.Records.{has_class};

    // Of KI records: whether one of them is that of a class with this index.
    pub(crate) fn has_class(mut self, index: u16) -> bool
        ensures { result ≡ has_class self.entry index }
    {
        self.any(|record| record.is_class_at(index))
    }
}

// The next record of a sheet, which is whole, and what was read before it.
#[derive(Clone, Copy)]
pub(crate) struct NextRecord<'a> {
    pub(crate) record: Record<'a>,
    pub(crate) before: Reading,
    pub ghost whole: { record_end record.sheet.now record.at ≤ length record.sheet.now },
    pub ghost code_first: { before.code + before.code_length ≤ before.handlers },
    pub ghost handlers_before: { before.handlers ≤ record.at },
}
