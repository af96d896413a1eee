// How a run ends, as a line has it (RULES, 'The printed walk').
ghost use Rattle.std.specs.Prelude.{◌≡◌};
ghost use Rattle.printing.specs.Endings.{name_of};

use rules::{End, Halt};
use std::fmt;
use values::Value;

// What a method gives back, to be printed.
#[derive(Clone, Copy)]
struct Returned(Value);

impl fmt::Display for Returned {
    fn fmt<W: fmt::Write>(&self, f: &mut fmt::Formatter<W>) -> fmt::Result {
        match self.0 {
            Value::Void => write!(f, "void"),
            Value::Int(word) => write!(f, "int {word:08X}"),
            Value::Float(word) => write!(f, "float {word:08X}"),
            Value::Reference(word) => write!(f, "ref {word:08X}"),
            Value::Long(bits) => write!(f, "long {bits:016X}"),
            Value::Double(bits) => write!(f, "double {bits:016X}"),
        }
    }
}

// What ended a run, to be printed.
#[derive(Clone, Copy)]
pub struct Ending(pub End);

impl Ending {
    // What ended it, in a word.
    pub fn name(self) -> &'static str
        ensures { result.now ≡ name_of self.0 }
    {
        match self.0 {
            None => "stopped",
            Some(Halt::Return(_)) => "return",
            Some(Halt::Throw) => "throw",
            Some(Halt::Refused(_)) => "refused",
        }
    }
}

// The name, and what goes with it.
impl fmt::Display for Ending {
    fn fmt<W: fmt::Write>(&self, f: &mut fmt::Formatter<W>) -> fmt::Result {
        let name = self.name();
        match self.0 {
            None => write!(f, "{name}"),
            Some(Halt::Return(v)) => write!(f, "{name} {}", Returned(v)),
            Some(Halt::Throw) => write!(f, "{name} arithmetic"),
            Some(Halt::Refused(refusal)) => write!(f, "{name} {}", refusal.number()),
        }
    }
}
