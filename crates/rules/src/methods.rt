// A method as it is lent.

// The most entries of a pool (JVMS 4.1).
pub const MAX_POOL: usize = 65536;

// Its code, the constant pool as kinds and words, and its handlers. No call writes them. Kinds and words apart, of lengths that question 1 compares: C lends them so.
#[derive(Clone, Copy)]
pub struct Method<'a> {
    pub code: &'a [u8],
    pub kinds: &'a [u8],
    pub words: &'a [u32],
    pub handlers: &'a [u8],
}
