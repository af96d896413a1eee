// The workbook's buttons: forward and back over an undo log, and a whole list of presses.
#![tactic(auto)]

mod answer_words;
mod back_press;
mod forward_press;
mod press_list;
mod undo_log;

pub use answer_words::{answer, halt_answer, pressed_answer, value_answer};
pub use back_press::back;
pub use forward_press::{PressResult, forward, pressed_by};
pub use press_list::presses;
