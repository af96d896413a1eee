// The whole descriptor: ( parameters ) return, and nothing after it.
ghost use Rattle.std.specs.Prelude.{◌≡◌};
ghost use Rattle.rules.specs.Descriptor.{return_letter, return_end};
ghost use Rattle.descriptor.specs.Answers.{Counted, Exact, Parsed, described};
ghost use Rattle.descriptor.specs.Cursors.{EndsAt};

use crate::cursor::Cursor;
use crate::fields::places_of;
use crate::letters::{CLOSING, OPENING};
use rules::Refusal;
use rules::descriptors::Descriptor;
use rules::letters::{ARRAY, CLASS, VOID};

// The place after the parameters, and how many places of a frame they have.
#[derive(Clone, Copy)]
struct Parameters<'a> {
    end: Cursor<'a>,
    places: u32,
}

// The parameters of a method have at most so many places.
const PLACES: u32 = 255;

impl<'a> Cursor<'a> {
    // The parameters, from offset 1 on; none where they have more places than a method may have.
    // By `while`: the place where they end is wanted, which an iterator over them would keep to itself.
    fn parameters(self) -> Option<Parameters<'a>>
        requires { self.at ≡ 1 }
        ensures { Counted self.entry.descriptor.now result }
    {
        let mut end = self;
        let mut places = 0;
        while places <= PLACES {
            let Some(next) = end.field() else {
                return Some(Parameters { end, places });
            };
            places += places_of(end.byte());
            end = next;
        }
        None
    }

    // After the return descriptor that begins here, if one does.
    fn returned(self) -> Option<Cursor<'a>>
        ensures { EndsAt self.entry.descriptor.now (return_end self.entry.descriptor.now self.entry.at) result }
    {
        if self.byte() == VOID {
            return Some(self.next());
        }
        self.field()
    }
}

// The return type by the first character of the return descriptor.
fn return_letter(first: u8) -> u32
    ensures { result ≡ return_letter first }
{
    if first == ARRAY {
        return u32::from(CLASS);
    }
    u32::from(first)
}

// What these bytes say, if they are a method descriptor.
fn parse(d: &[u8]) -> Option<Descriptor>
    ensures { Parsed d.now result }
{
    let parameters = Cursor::start(d).past(OPENING)?.parameters()?;
    let returned = parameters.end.past(CLOSING)?;
    if returned.returned()?.at != d.len() {
        return None;
    }
    Some(Descriptor {
        places: parameters.places,
        return_type: return_letter(returned.byte()),
    })
}

// Whether these bytes are a method descriptor, and what it says.
pub fn read_descriptor(d: &[u8]) -> Result<Descriptor, Refusal>
    ensures value { result ≡ described d.now }
    ensures exact { Exact d.now result }
{
    parse(d).ok_or(Refusal::Descriptor)
}
