// The samples on standard input: a head of 80 bytes, then the sheet, the log's words and the presses.
use integers::join_words;
use reading::{read_bytes_into, word_at};
use std::io;
use std::io::Read;

// The head of a sample.
pub(crate) type Head = [u8; 80];

// The name in a head, without the blanks after it; not `first_word`, for the name may be of several words, and not
// `trim_ascii_end`, which cuts tabs and ends of lines too.
pub(crate) fn name_of(head: &Head) -> &[u8] {
    let name = &head[..40];
    match name.iter().rposition(|byte| *byte != b' ') {
        Some(last) => &name[..last + 1],
        None => &[],
    }
}

// How much is lent of each part, and how much is read.
#[derive(Clone, Copy)]
pub(crate) struct Sizes {
    pub slots: usize,
    pub pool: usize,
    pub log: usize,
    pub presses: usize,
    pub answers: usize,
    pub sheet: usize,
}

impl Sizes {
    // The sizes in a head, after the name; by `as`, for `usize` has no `From<u32>`.
    fn of(head: &Head) -> Sizes {
        Sizes {
            slots: word_at(head, 40) as usize,
            pool: word_at(head, 44) as usize,
            log: word_at(head, 48) as usize,
            presses: word_at(head, 52) as usize,
            answers: word_at(head, 56) as usize,
            sheet: word_at(head, 60) as usize,
        }
    }
}

// Where a list of presses begins: the offset, the depth and the count.
#[derive(Clone, Copy, PartialEq, Default)]
pub(crate) struct Begin {
    pub pc: u32,
    pub depth: u32,
    pub count: u64,
}

impl Begin {
    // The beginning in a head, after the sizes.
    fn of(head: &Head) -> Begin {
        Begin {
            pc: word_at(head, 64),
            depth: word_at(head, 68),
            count: join_words(word_at(head, 76), word_at(head, 72)),
        }
    }
}

// A sample: its sizes, where its list begins, the sheet, the log's words, and a byte for each press.
// The log, which is written, has a lifetime of its own.
#[derive(Drop)]
pub(crate) struct Sample<'a, 'b> {
    pub sizes: Sizes,
    pub begin: Begin,
    pub sheet: &'a [u8],
    pub log: &'b mut [u32],
    pub presses: &'a [u8],
}

impl Sample<'_, '_> {
    // Whether each part is as long as the head says; one that is too long for what is lent was cut.
    pub(crate) fn is_whole(&self) -> bool {
        let sizes = self.sizes;
        self.sheet.len() == sizes.sheet
            && self.log.len() == sizes.log
            && self.presses.len() == sizes.presses
    }
}

// So many bytes; none of a part that is too long.
fn read_part<'a>(stdin: &mut impl Read, bytes: &'a mut [u8], count: usize) -> io::Result<&'a [u8]> {
    let count = if count <= bytes.len() { count } else { 0 };
    read_bytes_into(stdin, &mut bytes[..count])
}

// The words of a log, four bytes each, the high ones first; only the first ones of a log that is too long. They are read 64 at a time.
fn read_log<'a>(
    stdin: &mut impl Read,
    log: &'a mut [u32],
    count: usize,
) -> io::Result<&'a mut [u32]> {
    let count = count.min(log.len());
    let log = &mut log[..count];
    for words in log.chunks_mut(64) {
        let mut bytes = [0; 256];
        let (bytes, _) = bytes.split_at_mut(4 * words.len());
        let (parts, _) = read_bytes_into(stdin, bytes)?.as_chunks::<4>();
        for (word, part) in words.iter_mut().zip(parts) {
            *word = u32::from_be_bytes(*part);
        }
    }
    Ok(log)
}

// The sample after a head, in the memory that is lent for its parts.
pub(crate) fn read_sample<'a, 'b>(
    stdin: &mut impl Read,
    head: &Head,
    sheet: &'a mut [u8],
    log: &'b mut [u32],
    presses: &'a mut [u8],
) -> io::Result<Sample<'a, 'b>> {
    let sizes = Sizes::of(head);
    let begin = Begin::of(head);
    let sheet = read_part(stdin, sheet, sizes.sheet)?;
    let log = read_log(stdin, log, sizes.log)?;
    let presses = read_part(stdin, presses, sizes.presses)?;
    Ok(Sample {
        sizes,
        begin,
        sheet,
        log,
        presses,
    })
}
