// The interpreter loop (interpreter.rs): one step decided, one step taken, and a run of steps.
#![tactic(auto)]

mod advancing;
mod catching;
mod deciding;
mod finishing;
mod instruction;
mod reading;
mod running;
mod stepping;

pub use advancing::{Reached, advance};
pub use deciding::decide;
pub use running::{Ran, run};
pub use stepping::{Stepped, moved, step};
