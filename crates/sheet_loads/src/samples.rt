// The samples on standard input: a head of 56 bytes, and then the sheet.
use printing::first_word;
use reading::word_at;

// The head of a sample.
pub(crate) type Head = [u8; 56];

// The name in a head.
pub(crate) fn name_of(head: &Head) -> &[u8] {
    first_word(&head[..40])
}

// How many slots and entries of a pool are lent, and how many bytes the sheet has.
#[derive(Clone, Copy)]
pub(crate) struct Sizes {
    pub slots: usize,
    pub kinds: usize,
    pub words: usize,
    pub sheet: usize,
}

impl Sizes {
    // The sizes in a head, after the name; by `as`, for `usize` has no `From<u32>`.
    pub(crate) fn of(head: &Head) -> Sizes {
        Sizes {
            slots: word_at(head, 40) as usize,
            kinds: word_at(head, 44) as usize,
            words: word_at(head, 48) as usize,
            sheet: word_at(head, 52) as usize,
        }
    }
}
