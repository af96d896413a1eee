// The exported library: the stepper over lent memory, for programs in other languages. Every length and every word has its answer.
#![tactic(auto)]

mod leaving;
mod lists;
mod loads;
mod runs;
mod state_words;
mod steps;
mod version;

pub use lists::workbook_presses;
pub use loads::workbook_load;
pub use runs::workbook_run;
pub use steps::{workbook_back, workbook_forward, workbook_step};
pub use version::workbook_version;
