// The handlers of a method (JVMS 2.10, 4.7.3): which entry takes an ArithmeticException, and the step that catches it.
#![tactic(auto)]

mod catching;
mod entries;

pub use catching::throw_at;
pub use entries::find_handler;
