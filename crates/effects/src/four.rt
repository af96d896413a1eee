// The words that an instruction works on.

// Up to four words, lowest first; those past the number that an instruction works on are any. Named, and no array: no plainer, for each function takes them apart by these names.
#[derive(Clone, Copy)]
pub struct Four {
    pub a: u32,
    pub b: u32,
    pub c: u32,
    pub d: u32,
}
