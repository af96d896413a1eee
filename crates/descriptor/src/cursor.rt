// A place in a descriptor, from which it is read on.
ghost use Rattle.std.specs.Prelude.{◌≡◌, ◌+◌, ◌<◌, ◌≤◌, length};
ghost use Rattle.rules.specs.Fetch.{u8};

use operands::read_code_u8;

// A place between two bytes of a descriptor, or at one of its ends.
#[derive(Clone, Copy)]
pub(crate) struct Cursor<'a> {
    pub(crate) descriptor: &'a [u8],
    pub(crate) at: usize,
    pub ghost inside: { at ≤ length descriptor.now },
}

impl<'a> Cursor<'a> {
    ghost use Rattle.descriptor.specs.Cursors.{EndsAt, after_byte};

    // Before the first byte.
    pub(crate) fn start(descriptor: &'a [u8]) -> Cursor<'a>
        ensures same { result.descriptor.now ≡ descriptor.now }
        ensures first { result.at ≡ 0 }
    {
        Cursor { descriptor, at: 0 }
    }

    // The byte that stands here, and 0 at the end.
    pub(crate) fn byte(self) -> u8
        ensures { result ≡ u8 self.entry.descriptor.now self.entry.at }
    {
        read_code_u8(self.descriptor, self.at)
    }

    // After the byte that stands here.
    pub(crate) fn next(self) -> Cursor<'a>
        requires { 0 < u8 self.descriptor.now self.at }
        ensures same { result.descriptor.now ≡ self.entry.descriptor.now }
        ensures after { result.at ≡ self.entry.at + 1 }
    {
        Cursor {
            descriptor: self.descriptor,
            at: self.at + 1,
        }
    }

    // After a byte, if it stands here.
    pub(crate) fn past(self, byte: u8) -> Option<Cursor<'a>>
        requires { 0 < byte }
        ensures { EndsAt self.entry.descriptor.now (after_byte self.entry.descriptor.now self.entry.at byte) result }
    {
        if self.byte() == byte {
            Some(self.next())
        } else {
            None
        }
    }
}
