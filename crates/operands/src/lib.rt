// The operand bytes of an instruction (JVMS 6.5, 'Format'), read on any code at any offset.
#![tactic(auto)]

mod bytes;
mod jump;
mod switches;

pub use bytes::{read_code_i8, read_code_i16, read_code_u8, read_code_u16, read_code_u32};
pub use jump::{inside, jump_relative};
pub use switches::{Switch, lookup_offset, lookup_switch, table_offset, table_switch};
