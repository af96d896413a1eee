// Everything that a step must know about an instruction before it touches the frame: the table, and questions 4 and 5; and the page of opcodes, which is the table printed.
#![tactic(auto)]

mod decoding;
mod forms;
pub mod opcodes;
mod page;
mod table;

pub use decoding::{Decoded, decode};
pub use forms::{Entry, Format};
pub use page::opcode_line;
pub use table::entry;
