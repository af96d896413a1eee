// An ordinary step.

// Up to six words, lowest first; those past the number that an instruction gives are 0. Named, and no array: with arrays, of which a write cuts a part so that they are kept in memory, it
// was tried, and a step of the int loop took 8.9 machine instructions more (docs/PERFORMANCE).
#[derive(Clone, Copy, Default)]
pub struct Six {
    pub w0: u32,
    pub w1: u32,
    pub w2: u32,
    pub w3: u32,
    pub w4: u32,
    pub w5: u32,
}

// What an ordinary step changes: the next program counter and depth, and the first `many` of six words, written from place `first` on.
// Places count from the first local.
#[derive(Clone, Copy)]
pub struct Update {
    pub pc: u32,
    pub depth: u32,
    pub first: u32,
    pub many: u32,
    pub words: Six,
}
