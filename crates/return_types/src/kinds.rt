// The return types of methods (JVMS, table 4.3-A), which values go with each, and what is kept of them.
ghost use Rattle.std.specs.Prelude.{◌≡◌, MatchOption, false};
ghost use Rattle.values.specs.declared.Value.TheVariants.{Int};
ghost use Rattle.rules.specs.Returns.{is_return_type, suits, narrowed, given_back};
ghost use Rattle.return_types.specs.Letters.{letter};

use integers::{i2b, i2c, i2s};
use rules::letters;
use values::Value;

// A return type; all references have one.
#[derive(Clone, Copy)]
pub(crate) enum ReturnType {
    Byte,
    Char,
    Double,
    Float,
    Int,
    Long,
    Reference,
    Short,
    Void,
    Boolean,
}

impl ReturnType {
    // The return type of a word of a state, if it is one: the state is lent by C, and any word may stand there. An
    // Option and no TryFrom: of a word that is none there is nothing to say.
    #[tactic(auto, unfolding(rules::specs::Returns::is_return_type))]
    pub(crate) fn from_word(word: u32) -> Option<ReturnType>
        ensures { MatchOption result (is_return_type word ≡ false) (λ t. word ≡ letter t) }
    {
        match u8::try_from(word).ok()? {
            letters::BYTE => Some(ReturnType::Byte),
            letters::CHAR => Some(ReturnType::Char),
            letters::DOUBLE => Some(ReturnType::Double),
            letters::FLOAT => Some(ReturnType::Float),
            letters::INT => Some(ReturnType::Int),
            letters::LONG => Some(ReturnType::Long),
            letters::CLASS => Some(ReturnType::Reference),
            letters::SHORT => Some(ReturnType::Short),
            letters::VOID => Some(ReturnType::Void),
            letters::BOOLEAN => Some(ReturnType::Boolean),
            _ => None,
        }
    }

    // Whether an int goes with it.
    fn takes_int(self) -> bool
        ensures { result ≡ suits (letter self) (Int 0) }
    {
        matches!(
            self,
            ReturnType::Boolean
                | ReturnType::Byte
                | ReturnType::Char
                | ReturnType::Short
                | ReturnType::Int
        )
    }

    // Whether a value goes with it.
    pub(crate) fn suits(self, v: Value) -> bool
        ensures { result ≡ suits (letter self) v }
    {
        match v {
            Value::Void => matches!(self, ReturnType::Void),
            Value::Int(_) => self.takes_int(),
            Value::Float(_) => matches!(self, ReturnType::Float),
            Value::Reference(_) => matches!(self, ReturnType::Reference),
            Value::Long(_) => matches!(self, ReturnType::Long),
            Value::Double(_) => matches!(self, ReturnType::Double),
        }
    }

    // What is kept of an int.
    #[tactic(auto, unfolding(rules::specs::Returns::narrowed))]
    fn narrow(self, a: u32) -> u32
        ensures { result ≡ narrowed (letter self) a }
    {
        match self {
            ReturnType::Boolean => a % 2,
            ReturnType::Byte => i2b(a),
            ReturnType::Char => i2c(a),
            ReturnType::Short => i2s(a),
            _ => a,
        }
    }

    // What is kept of a value: of an int what the return type holds, of any other all.
    pub(crate) fn given_back(self, v: Value) -> Value
        ensures { result ≡ given_back (letter self) v }
    {
        match v {
            Value::Int(a) => Value::Int(self.narrow(a)),
            _ => v,
        }
    }
}
