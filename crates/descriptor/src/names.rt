// The name of a class (JVMS 4.2.1), character by character, in modified UTF-8 (4.4.7).
ghost use Rattle.std.specs.Prelude.{◌≡◌, length};
ghost use Rattle.rules.specs.Descriptor.{is_of_names, continues, is_one_byte, is_two_bytes, is_three_bytes, character_size, name_end};
ghost use Rattle.descriptor.specs.Answers.{some_offset};
ghost use Rattle.descriptor.specs.Cursors.{EndsAt, after_character};

use crate::cursor::Cursor;
use crate::letters::{DOT, SEMICOLON, SLASH};
use operands::read_code_u8;
use rules::letters::ARRAY;

// Whether a character may stand in an unqualified name.
fn is_of_names(c: u8) -> bool
    ensures { result ≡ is_of_names c }
{
    !matches!(c, DOT | SEMICOLON | ARRAY | SLASH)
}

// Whether a byte goes on with a character.
fn continues(b: u8) -> bool
    ensures { result ≡ continues b }
{
    matches!(b, 0x80..=0xBF)
}

// A character of one byte.
fn is_one_byte(a: u8) -> bool
    ensures { result ≡ is_one_byte a }
{
    matches!(a, 1..=0x7F) && is_of_names(a)
}

// A character of two bytes.
fn is_two_bytes(a: u8, b: u8) -> bool
    ensures { result ≡ is_two_bytes a b }
{
    match a {
        0xC0 => b == 0x80,
        0xC2..=0xDF => continues(b),
        _ => false,
    }
}

// A character of three bytes.
fn is_three_bytes(a: u8, b: u8, c: u8) -> bool
    ensures { result ≡ is_three_bytes a b c }
{
    let begins = match a {
        0xE0 => 0xA0 <= b,
        0xE1..=0xEF => true,
        _ => false,
    };
    begins && continues(b) && continues(c)
}

// How many of three bytes are a character of a name, if one begins there.
#[tactic(auto, unfolding(rules::specs::Descriptor::character_size))]
fn character_size(a: u8, b: u8, c: u8) -> Option<usize>
    ensures { result ≡ some_offset (character_size a b c) }
{
    if is_one_byte(a) {
        return Some(1);
    }
    if is_two_bytes(a, b) {
        return Some(2);
    }
    if is_three_bytes(a, b, c) {
        return Some(3);
    }
    None
}

impl<'a> Cursor<'a> {
    // After the character of a name that begins here, if one does.
    fn character(self) -> Option<Cursor<'a>>
        ensures { EndsAt self.entry.descriptor.now (after_character self.entry.descriptor.now self.entry.at) result }
    {
        let a = read_code_u8(self.descriptor, self.at);
        let b = read_code_u8(self.descriptor, self.at + 1);
        let c = read_code_u8(self.descriptor, self.at + 2);
        let size = character_size(a, b, c)?;
        Some(Cursor {
            descriptor: self.descriptor,
            at: self.at + size,
        })
    }

    // After the class name and its semicolon that begin here, if they do.
    // By `while`: the place where the name ends is wanted, which an iterator over its characters would keep to itself.
    pub(crate) fn class_name(self) -> Option<Cursor<'a>>
        ensures { EndsAt self.entry.descriptor.now (name_end (length self.entry.descriptor.now) self.entry.descriptor.now self.entry.at) result }
    {
        let mut cursor = self;
        while let Some(next) = cursor.character() {
            if let Some(end) = next.past(SEMICOLON) {
                return Some(end);
            }
            cursor = next.past(SLASH).unwrap_or(next);
        }
        None
    }
}
