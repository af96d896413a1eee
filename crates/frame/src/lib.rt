// The frame of a method: whether it stands, what an instruction needs of it, and its words read and written.
#![tactic(auto)]

mod places;
mod questions;
mod slots;
mod words;

pub use places::{Placed, place};
pub use questions::check_frame;
pub use slots::commit;
pub use words::write_words;
