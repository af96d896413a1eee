// A field type (JVMS 4.3.2): its brackets, then a base type or a class.
ghost use Rattle.std.specs.Prelude.{◌≡◌};
ghost use Rattle.values.specs.Kinds.{places};
ghost use Rattle.rules.specs.Descriptor.{is_base, brackets_end, element_end, field_end, kind_of};
ghost use Rattle.descriptor.specs.Cursors.{EndsAt};

use crate::cursor::Cursor;
use rules::letters::{ARRAY, BOOLEAN, BYTE, CHAR, CLASS, DOUBLE, FLOAT, INT, LONG, SHORT};

// An array has at most so many.
const DIMENSIONS: usize = 255;

// Whether a base type begins with a character.
fn is_base(c: u8) -> bool
    ensures { result ≡ is_base c }
{
    matches!(
        c,
        BYTE | CHAR | DOUBLE | FLOAT | INT | LONG | SHORT | BOOLEAN
    )
}

impl<'a> Cursor<'a> {
    // After the brackets that stand here, of which it passes at most 255.
    fn brackets(self) -> Cursor<'a>
        ensures same { result.descriptor.now ≡ self.entry.descriptor.now }
        ensures after { result.at ≡ brackets_end 255 self.entry.descriptor.now self.entry.at }
    {
        let mut cursor = self;
        for _ in 0..DIMENSIONS {
            let Some(next) = cursor.past(ARRAY) else {
                return cursor;
            };
            cursor = next;
        }
        cursor
    }

    // After the base type or the class that begins here, if one does.
    fn element(self) -> Option<Cursor<'a>>
        ensures { EndsAt self.entry.descriptor.now (element_end self.entry.descriptor.now self.entry.at) result }
    {
        // not a match: with base types tested first a load of many parameters takes fewer machine instructions
        let first = self.byte();
        if is_base(first) {
            return Some(self.next());
        }
        if first == CLASS {
            return self.next().class_name();
        }
        None
    }

    // After the field type that begins here, if one does.
    #[tactic(auto, unfolding(rules::specs::Descriptor::field_end))]
    pub(crate) fn field(self) -> Option<Cursor<'a>>
        ensures { EndsAt self.entry.descriptor.now (field_end self.entry.descriptor.now self.entry.at) result }
    {
        self.brackets().element()
    }
}

// The places of a field type, by its first character: a long and a double take two.
pub(crate) fn places_of(first: u8) -> u32
    ensures { result ≡ places (kind_of first) }
{
    match first {
        LONG | DOUBLE => 2,
        _ => 1,
    }
}
