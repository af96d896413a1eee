// What an instruction does with its words, by its shared opcode: each promise is the result of the instruction's row in the table.
#![tactic(auto)]

mod arithmetic;
mod branches;
mod choice;
mod comparisons;
mod constants;
mod conversion;
mod float;
mod four;
mod moves;
mod on_stack;
mod outcome;
mod returns;
mod stack;

pub use choice::effect;
pub use four::Four;
pub use outcome::Effect;
