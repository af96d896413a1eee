// The characters around the parameters and in names, in ASCII; those of types are in rules.
pub(crate) const OPENING: u8 = b'(';

pub(crate) const CLOSING: u8 = b')';

pub(crate) const DOT: u8 = b'.';

pub(crate) const SLASH: u8 = b'/';

pub(crate) const SEMICOLON: u8 = b';';
