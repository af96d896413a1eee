// Arithmetic and comparison of floats and doubles as words (JVMS 2.8, 2.11.3): a function for each operation, over the format, f32 or f64.
#![tactic(auto)]

mod arithmetic;
mod machine;
mod order;
mod remainder;

pub use arithmetic::{add, div, mul, neg, rem, sub};
pub use machine::Arithmetic;
pub use order::compare;
