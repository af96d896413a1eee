// Where a method stands.

// Its two sizes, the program counter, the operand stack's depth, how many steps can be taken back, and the method's return type, a character of its descriptor: a
// number, for the C interface has it as a word, and one that is no return type's counts as 0. In this order of its fields a state has 24 bytes, and none that pads it.
#[derive(Clone, Copy)]
pub struct State {
    pub max_stack: u16,
    pub max_locals: u16,
    pub pc: u32,
    pub depth: u32,
    pub return_type: u32,
    pub count: u64,
}
