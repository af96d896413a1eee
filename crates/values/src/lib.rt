// The values of the machine; what they mean is said in specs/.
#![tactic(auto)]

// What a return gives back, as bits (value.rs): a reference is its word, 0 for null, and `Void` is no value.
#[derive(Clone, Copy)]
pub enum Value {
    Void,
    Int(u32),
    Float(u32),
    Reference(u32),
    Long(u64),
    Double(u64),
}
