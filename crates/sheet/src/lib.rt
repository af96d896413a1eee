// The sheet: a file that holds one method with its constants, handlers and arguments, checked whole and then filled into lent memory.
#![tactic(auto)]

mod checking;
mod contents;
mod filling;
mod handler_records;
mod loading;
mod marks;
mod records;

pub use checking::check_sheet;
pub use loading::{code_of, handlers_length, handlers_of, load, load_read, loaded_state};
