// Bytes from the input, part by part, and the numbers in them, for the programs.
#![tactic(auto)]

mod digits;
mod records;

ghost use Rattle.std.specs.Io.KnownBytes.{Consumes, IsAtEnd};
ghost use Rattle.std.specs.Prelude.{◌<◌, ◌≤◌, IfOk, length, take};

pub use digits::{digit_value, hexadecimal, word_at};
pub use records::{read_bytes, read_bytes_into, read_record};
use std::io;
use std::io::Read;

// Reads until the buffer is full or the input ends, and gives how many bytes were read.
pub fn read_full<R: Read>(input: &mut R, buffer: &mut [u8]) -> io::Result<usize>
    ensures within { IfOk result (λ n. n ≤ length buffer.new) }
    ensures bytes { IfOk result (λ n. Consumes (R.remaining input.old) (R.remaining input.new) (take n buffer.new)) }
    ensures end { IfOk result (λ n. n < length buffer.new → IsAtEnd (R.remaining input.new)) }
{
    let mut count = 0;
    // no `for`: only a read says how many bytes it gave
    while count < buffer.len() {
        let n = input.read(&mut buffer[count..])?;
        if n == 0 {
            break;
        }
        count += n;
    }
    Ok(count)
}
