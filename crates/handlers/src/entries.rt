// The entries of the lent part: which of them catches what is thrown at an offset.
#![tactic(auto, using(std::proofs::lemmas::Bool::Decides::nat_tests), unfolding(rules::specs::Handlers::covers, rules::specs::Handlers::takes, rules::specs::Handlers::catches))]

ghost use Rattle.std.specs.Prelude.{◌≡◌};
ghost use Rattle.rules.specs.Handlers.{covers, takes, catches, handler_at};

use operands::read_code_u16;
use rules::handler_fields::*;
use rules::tags::CONSTANT_CLASS;
use rules::{Method, get_or};

// The bytes of an entry: an EX record of the sheet, whose mark and length are not looked at (JVMS 4.7.3).
const ENTRY: usize = 12;

type Entry = [u8; ENTRY];

// Whether the range of an entry has a place in the code; its end is excluded.
fn is_covered(entry: &Entry, pc: u32) -> bool
    ensures { result ≡ covers entry.now 0 pc }
{
    let start = u32::from(read_code_u16(entry, START_PC));
    let end = u32::from(read_code_u16(entry, END_PC));
    start <= pc && pc < end
}

// Whether an ArithmeticException is taken by a catch type: 0 takes everything, a class what can be assigned to it.
fn is_taken(method: &Method, catch_type: u16) -> bool
    ensures { result ≡ takes method.now.kinds.now method.now.words.now catch_type }
{
    let index = usize::from(catch_type);
    let kind = get_or(method.kinds, index, 0);
    let word = get_or(method.words, index, 0);
    catch_type == 0 || (kind == CONSTANT_CLASS && word == 1)
}

// Whether an entry catches what is thrown at a place in the code.
fn is_caught(method: &Method, entry: &Entry, pc: u32) -> bool
    ensures { result ≡ catches method.now.kinds.now method.now.words.now entry.now 0 pc }
{
    is_covered(entry, pc) && is_taken(method, read_code_u16(entry, CATCH_TYPE))
}

// Where the handler begins of the first whole entry that catches what is thrown at a place in the code.
pub fn find_handler(method: &Method, pc: u32) -> Option<u16>
    ensures { result ≡ handler_at method.now.kinds.now method.now.words.now method.now.handlers.now pc }
{
    let (entries, _) = method.handlers.as_chunks::<ENTRY>();
    entries
        .iter()
        .find(|entry| is_caught(method, entry, pc))
        .map(|entry| read_code_u16(entry, HANDLER_PC))
}
