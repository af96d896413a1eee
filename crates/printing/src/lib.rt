// What the programs print: lists of words, checksums, states, and how a run ends.
#![tactic(auto)]

mod endings;
mod lists;
mod names;
mod sums;

pub use endings::Ending;
pub use lists::{print_list, print_state, print_words};
pub use names::first_word;
pub use sums::checksum;
