// The fields of a line; none where a line is no vector. judge/src/lists/decoding says how a line is laid out.
ghost use Rattle.std.specs.Prelude.{◌≤◌};

use reading::{digit_value, hexadecimal};
use walks::LentPool;

// A line, its line feed included.
pub(crate) type Line = [u8; 187];

// The columns of an entry: of a byte of code, and of a constant, its kind first.
const BYTE: usize = 2;

const CONSTANT: usize = 10;

// The number in some columns, all of them digits.
pub(crate) fn number<T: TryFrom<u64>>(columns: &[u8]) -> Option<T>
where
    T::Error: Drop,
{
    T::try_from(hexadecimal(columns)?).ok()
}

// The byte in two columns, both of them digits.
fn byte(high: u8, low: u8) -> Option<u8> {
    Some(digit_value(high)? << 4 | digit_value(low)?)
}

// Whether a space stands between the columns, and a line feed at the end.
pub(crate) fn is_laid_out(line: &Line) -> bool {
    let before = line[6] == b' ' && line[15] == b' ' && line[24] == b' ' && line[27] == b' ';
    let after = line[36] == b' ' && line[45] == b' ' && line[54] == b' ' && line[57] == b' ';
    before && after && line[186] == b'\n'
}

// The answer that a line expects: three numbers, or that of a refusal, with which no other goes.
pub(crate) fn expected(line: &Line) -> Option<Result<[u64; 3], u32>> {
    let refusal = number(&line[25..27])?;
    let numbers = [
        number(&line[28..36])?,
        number(&line[37..45])?,
        number(&line[46..54])?,
    ];
    match (refusal, numbers) {
        (0, _) => Some(Ok(numbers)),
        (_, [0, 0, 0]) => Some(Err(refusal)),
        _ => None,
    }
}

// So many entries of a line, of so many columns each; after them it has to be blank.
fn entries(line: &Line, count: u8, columns: usize) -> Option<&[u8]>
    requires { columns ≤ 10 }
{
    let bytes = &line[58..186];
    let end = usize::from(count) * columns;
    if end > bytes.len() {
        return None;
    }
    let (entries, rest) = bytes.split_at(end);
    // not `any`: without an early end several bytes are tested at a time
    let is_blank = rest
        .iter()
        .fold(true, |is_blank, byte| is_blank & (*byte == b' '));
    if is_blank { Some(entries) } else { None }
}

// The bytes of a line as code, in the first places of what is lent.
pub(crate) fn code_of<'a>(lent: &'a mut [u8], line: &Line, count: u8) -> Option<&'a [u8]> {
    let (entries, _) = entries(line, count, BYTE)?.as_chunks::<BYTE>();
    let code = lent.get_mut(..entries.len())?;
    for (place, columns) in code.iter_mut().zip(entries) {
        *place = byte(columns[0], columns[1])?;
    }
    Some(code)
}

// The bytes of a line as entries of a constant pool, in the first places of what is lent.
pub(crate) fn pool_of<'a>(
    kinds: &'a mut [u8],
    words: &'a mut [u32],
    line: &Line,
    count: u8,
) -> Option<LentPool<'a>> {
    let (entries, _) = entries(line, count, CONSTANT)?.as_chunks::<CONSTANT>();
    let kinds = kinds.get_mut(..entries.len())?;
    let words = words.get_mut(..entries.len())?;
    for (kind, columns) in kinds.iter_mut().zip(entries) {
        *kind = number(&columns[..BYTE])?;
    }
    for (word, columns) in words.iter_mut().zip(entries) {
        *word = number(&columns[BYTE..])?;
    }
    Some(LentPool { kinds, words })
}
