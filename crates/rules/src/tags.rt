// The tags of constants (JVMS 4.4), by their names there.
pub const CONSTANT_INTEGER: u8 = 3;

pub const CONSTANT_FLOAT: u8 = 4;

pub const CONSTANT_LONG: u8 = 5;

pub const CONSTANT_DOUBLE: u8 = 6;

pub const CONSTANT_CLASS: u8 = 7;
