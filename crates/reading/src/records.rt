// Records of a fixed length and parts of a given length. Where the input ends early, filler stands for what is missing.
ghost use Rattle.std.specs.Prelude.{◌≡◌, ◌<◌, ◌≤◌, ℕ, IfOk, IfSome, IfNone, length, vec_len};
ghost use Rattle.std.specs.Io.KnownBytes.{IsAtEnd};
ghost use Rattle.reading.specs.Padded.{IsPadded};

use crate::read_full;
use std::alloc::Global;
use std::io;
use std::io::Read;

// Reads until the buffer is full or the input ends, fills the rest of it, and gives how many bytes were read.
fn read_padded<R: Read>(input: &mut R, buffer: &mut [u8], filler: u8) -> io::Result<usize>
    ensures within { IfOk result (λ n. n ≤ length buffer.new) }
    ensures padded { IfOk result (λ n. IsPadded (R.remaining input.old) (R.remaining input.new) filler n buffer.new) }
{
    let count = read_full(input, buffer)?;
    buffer[count..].fill(filler);
    Ok(count)
}

// The next N bytes, or none at the end of the input. The programs loop over records themselves: an iterator would keep the input,
// from which three of them read on after a record, and the contract of a function that takes a closure would have to relate the
// input before and after each call, which no program needs.
pub fn read_record<R: Read, const N: usize>(
    input: &mut R,
    filler: u8,
) -> io::Result<Option<[u8; N]>>
    ensures some { IfOk result (λ o. IfSome o (λ xs. (n : ℕ) × (0 < n) × IsPadded (R.remaining input.old) (R.remaining input.new) filler n xs)) }
    ensures none { IfOk result (λ o. IfNone o (0 < N → IsAtEnd (R.remaining input.new))) }
{
    let mut record = [filler; N];
    let count = read_padded(input, &mut record, filler)?;
    if count == 0 {
        return Ok(None);
    }
    Ok(Some(record))
}

// The next bytes, as many as the buffer has places, with 0 for those after the end of the input.
pub fn read_bytes_into<'a, R: Read>(input: &mut R, buffer: &'a mut [u8]) -> io::Result<&'a [u8]>
    ensures len { IfOk result (λ bytes. length bytes.now ≡ length buffer.old) }
    ensures padded { IfOk result (λ bytes. (n : ℕ) × IsPadded (R.remaining input.old) (R.remaining input.new) 0 n bytes.now) }
{
    read_padded(input, buffer, 0)?;
    Ok(buffer)
}

// The next bytes, as many as are asked for, with 0 for those after the end of the input.
pub fn read_bytes<R: Read>(alloc: Global, input: &mut R, count: usize) -> io::Result<Vec<u8>>
    ensures len { IfOk result (λ v. vec_len v ≡ count) }
    ensures padded { IfOk result (λ v. (n : ℕ) × IsPadded (R.remaining input.old) (R.remaining input.new) 0 n v.items) }
{
    let mut bytes = vec![in alloc; 0; count]?;
    read_padded(input, &mut bytes, 0)?;
    Ok(bytes)
}

#[cfg(test)]
mod tests {
    use super::*;
    use std::test::Fail;

    #[test]
    fn reads_past_the_end(rt: HostRuntime) -> Result<(), Fail> {
        let mut input = b"abcd".as_slice();
        let first = read_record::<_, 3>(&mut input, b' ')?;
        assert_eq!(rt; first, Some(*b"abc"));
        let bytes = read_bytes(rt.alloc(), &mut input, 2)?;
        assert_eq!(rt; bytes.as_slice(), b"d\0".as_slice());
        let last = read_record::<_, 3>(&mut input, b' ')?;
        assert_eq!(rt; last, None);
        Ok(())
    }

    #[test]
    fn reads_past_the_end_into_lent_bytes(rt: HostRuntime) -> Result<(), Fail> {
        let mut input = b"abcd".as_slice();
        let first = read_record::<_, 3>(&mut input, b' ')?;
        assert_eq!(rt; first, Some(*b"abc"));
        let mut buffer = *b"wxyz";
        let bytes = read_bytes_into(&mut input, &mut buffer[..2])?;
        assert_eq!(rt; bytes, b"d\0".as_slice());
        let last = read_record::<_, 3>(&mut input, b' ')?;
        assert_eq!(rt; last, None);
        Ok(())
    }
}
