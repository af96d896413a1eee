// The characters of field and return types, in ASCII (JVMS, table 4.3-A and 4.3.3).
pub const BYTE: u8 = b'B';

pub const CHAR: u8 = b'C';

pub const DOUBLE: u8 = b'D';

pub const FLOAT: u8 = b'F';

pub const INT: u8 = b'I';

pub const LONG: u8 = b'J';

pub const CLASS: u8 = b'L';

pub const SHORT: u8 = b'S';

pub const VOID: u8 = b'V';

pub const BOOLEAN: u8 = b'Z';

pub const ARRAY: u8 = b'[';
