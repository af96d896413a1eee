// The method descriptor of JVMS 4.3.3: whether bytes are one, the places of its parameters, and its return type.
#![tactic(auto)]

mod cursor;
mod descriptors;
mod fields;
mod letters;
mod names;

pub use descriptors::read_descriptor;
pub use rules::descriptors::Descriptor;
