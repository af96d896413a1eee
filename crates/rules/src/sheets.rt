// What a sheet says, and what a load of one gives.
use crate::descriptors::Descriptor;
use crate::refusals::Refusal;
use crate::states::State;

// The marks of a sheet's records.
#[derive(Clone, Copy)]
pub enum Mark {
    LM,
    DS,
    CD,
    KI,
    EX,
    AR,
}

// What has been read of a sheet: the last record's mark, the method's sizes, what its descriptor says, where its code begins in the sheet and how long it is, the
// highest pool index used, where the handlers begin, which end at the AR record, and where the argument words begin and how many there are.
#[derive(Clone, Copy, Default)]
pub struct Reading {
    pub last: Option<Mark>,
    pub max_stack: u16,
    pub max_locals: u16,
    pub descriptor: Option<Descriptor>,
    pub code: usize,
    pub code_length: usize,
    pub used: Option<u32>,
    pub handlers: usize,
    pub arguments: usize,
    pub argument_count: usize,
}

// What a load gives in every case, so that it is no Result (RULES, 'The sheet'): whether it is accepted, the state, and where the code and the handlers lie in the sheet. A refused one
// gives a state of zeros and twice the empty part at the sheet's start. Places and lengths apart, for C is given the four numbers so.
#[derive(Clone, Copy)]
pub struct Loaded {
    pub answer: Result<(), Refusal>,
    pub state: State,
    pub code: usize,
    pub code_length: usize,
    pub handlers: usize,
    pub handlers_length: usize,
}
