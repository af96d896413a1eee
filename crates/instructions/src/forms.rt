// What a step reads of an instruction's row.
ghost use Rattle.std.specs.Prelude.{◌≡◌};
ghost use Rattle.instructions.specs.Table.{length_in};

// How the operand bytes are read: JVMS's 'Format'. A branch of 16 bits is read as a short.
#[derive(Clone, Copy, PartialEq, Eq)]
pub enum Format {
    Alone,
    Implied(u8),
    Byte,
    Short,
    Index,
    Index2,
    IndexConst,
    Branch4,
    Table,
    Pairs,
    Widened,
}

impl Format {
    // The length in bytes as the page of opcodes prints it: 0 marks a switch and 254 WIDE, whose lengths the code says.
    pub(crate) fn length(self) -> u8
        ensures { result ≡ length_in self }
    {
        match self {
            Format::Alone | Format::Implied(_) => 1,
            Format::Byte | Format::Index => 2,
            Format::Short | Format::Index2 | Format::IndexConst => 3,
            Format::Branch4 => 5,
            Format::Table | Format::Pairs => 0,
            Format::Widened => 254,
        }
    }
}

// The format, the opcode that instructions of the same effect share, the places of the local, and the places popped and pushed.
#[derive(Clone, Copy, PartialEq, Eq)]
pub struct Entry {
    pub format: Format,
    pub shared: u8,
    pub locals: u8,
    pub pops: u8,
    pub pushes: u8,
}
