// Conversions between ints, longs, floats and doubles as words (JVMS 2.8, 2.11.4): one from integers over the width and the format, one back, and one between formats.
#![tactic(auto)]

mod float_to_float;
mod float_to_int;
mod format;
mod int_to_float;
mod rounding;
mod words;

pub use float_to_float::of_float;
pub use float_to_int::to_int;
pub use format::Format;
pub use int_to_float::of_int;
pub use words::Word;
