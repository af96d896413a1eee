// Refusals: the first question that is answered no.
ghost use Rattle.std.specs.Prelude.{◌≡◌};
ghost use Rattle.rules.specs.Refusals.{number_of};

// By what is asked (RULES, 'Questions and refusals', and 'The sheet' from `RecordCut` on).
#[derive(Clone, Copy, PartialEq, Eq)]
pub enum Refusal {
    Lengths,
    Code,
    Depth,
    Opcode,
    OperandBytes,
    SwitchKeys,
    StackUnderflow,
    StackOverflow,
    Local,
    Constant,
    Target,
    LogFull,
    NothingToTakeBack,
    LogEntry,
    RecordCut,
    UnknownMark,
    RecordOrder,
    RecordLength,
    ConstantRecord,
    LentMemory,
    TooManyArguments,
    Descriptor,
    ReturnType,
    HandlerRecord,
}

impl Refusal {
    // The number that the sheet's author and a host are told.
    pub fn number(self) -> u32
        ensures { result ≡ number_of self }
    {
        match self {
            Refusal::Lengths => 1,
            Refusal::Code => 2,
            Refusal::Depth => 3,
            Refusal::Opcode => 4,
            Refusal::OperandBytes => 5,
            Refusal::SwitchKeys => 6,
            Refusal::StackUnderflow => 7,
            Refusal::StackOverflow => 8,
            Refusal::Local => 9,
            Refusal::Constant => 10,
            Refusal::Target => 11,
            Refusal::LogFull => 12,
            Refusal::NothingToTakeBack => 13,
            Refusal::LogEntry => 14,
            Refusal::RecordCut => 21,
            Refusal::UnknownMark => 22,
            Refusal::RecordOrder => 23,
            Refusal::RecordLength => 24,
            Refusal::ConstantRecord => 25,
            Refusal::LentMemory => 26,
            Refusal::TooManyArguments => 27,
            Refusal::Descriptor => 31,
            Refusal::ReturnType => 32,
            Refusal::HandlerRecord => 33,
        }
    }
}
