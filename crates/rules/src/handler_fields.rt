// Where the fields of an EX record lie, and so those of an entry of the handlers (JVMS 4.7.3).
pub const START_PC: usize = 4;

pub const END_PC: usize = 6;

pub const HANDLER_PC: usize = 8;

pub const CATCH_TYPE: usize = 10;
