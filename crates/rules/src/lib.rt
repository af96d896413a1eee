// The types that the rules speak of, and the few functions on them that all crates share; the rules themselves are in specs/.
#![tactic(auto)]

pub mod descriptors;
mod frames;
mod halts;
pub mod handler_fields;
pub mod letters;
mod methods;
mod refusals;
mod sheets;
mod slices;
mod states;
pub mod tags;
mod updates;

pub use frames::frame_size;
pub use halts::{Decision, End, Halt, Pressed};
pub use methods::{MAX_POOL, Method};
pub use refusals::Refusal;
pub use sheets::{Loaded, Mark, Reading};
pub use slices::get_or;
pub use states::State;
pub use updates::{Six, Update};

// A line of the page of opcodes: an opcode, its length in bytes, and the places that it pops and pushes. Length 0 marks a switch, 254 WIDE and 255 an opcode outside
// the core: numbers and no enum, for the page prints them so.
#[derive(Clone, Copy)]
pub struct OpcodeLine {
    pub opcode: u8,
    pub length: u32,
    pub popped: u32,
    pub pushed: u32,
}

// What an answer says over the C boundary: a number, and the value that goes with it as two words, 0 where there is none.
#[derive(Clone, Copy)]
pub struct Answer {
    pub number: u32,
    pub low: u32,
    pub high: u32,
}
