// Loads sample sheets from standard input into lent memory that holds junk, and prints what each load answers and checksums of what it left.
// judge/src/lists/sheets writes the samples and the answers, and says how both are laid out.
#![tactic(auto)]

mod lending;
mod loading;
mod samples;

use crate::lending::lend;
use crate::loading::load_and_print;
use crate::samples::{Sizes, name_of};
use reading::{read_bytes_into, read_record};
use std::io;

// More samples than any file has: the loop over them has to end.
const MOST: u64 = 100_000;

// Reads each sheet and loads it, unless it has more bytes or wants more memory than any sample.
fn main(rt: HostRuntime) -> io::Result<()> {
    let mut bytes = [0; 66000];
    let mut slots = [0; 300];
    let mut kinds = [0; 65600];
    let mut words = [0; 65600];
    let mut stdin = rt.stdin();
    for _ in 0..MOST {
        let Some(head) = read_record(&mut stdin, 0)? else {
            break;
        };
        rt.write_all(name_of(&head))?;
        let sizes = Sizes::of(&head);
        if sizes.sheet > bytes.len() {
            continue;
        }
        let sheet = read_bytes_into(&mut stdin, &mut bytes[..sizes.sheet])?;
        if let Some(mut memory) = lend(&mut slots, &mut kinds, &mut words, sizes) {
            load_and_print(&rt, sheet, &mut memory)?;
        }
    }
    Ok(())
}
