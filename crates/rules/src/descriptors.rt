// What a method descriptor says.

// The places of its parameters, and its return type (B C D F I J L S V Z, L for every reference). A number, and no enum: it goes into the word of a state and nowhere else, so
// that an enum would be made of the character only to give it back.
#[derive(Clone, Copy)]
pub struct Descriptor {
    pub places: u32,
    pub return_type: u32,
}
