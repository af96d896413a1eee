// The fields of a line: a sample method and what it is lent.
ghost use Rattle.std.specs.Prelude.{◌<◌};

use reading::digit_value;
use rules::{Method, State};

// A line, its line feed included.
pub(crate) type Line = [u8; 496];

// A sample: the method, the slots, and the state to start from.
#[derive(Clone, Copy)]
pub(crate) struct Sample<'a> {
    pub method: Method<'a>,
    pub slots: &'a [u32],
    pub state: State,
}

// The number in some columns, no more than its type holds. A byte that is no digit counts as 0.
fn number<T: TryFrom<u64> + Default>(columns: &[u8]) -> T
where
    T::Error: Drop,
{
    let value = columns.iter().fold(0u64, |value, byte| {
        value << 4 | u64::from(digit_value(*byte).unwrap_or_default())
    });
    T::try_from(value).unwrap_or_default()
}

// The first numbers in some columns, of so many columns each, in the first places of what is lent; no more than it has.
fn numbers<'a, T: TryFrom<u64> + Default + Drop>(
    lent: &'a mut [T],
    columns: &[u8],
    width: usize,
    count: usize,
) -> &'a [T]
where
    T::Error: Drop,
    requires { 0 < width }
{
    let count = count.min(lent.len());
    let all = &mut lent[..count];
    for (place, item) in all.iter_mut().zip(columns.chunks_exact(width)) {
        *place = number(item);
    }
    all
}

// The state in a line.
fn state_of(line: &Line) -> State {
    State {
        max_stack: number(&line[442..446]),
        max_locals: number(&line[447..451]),
        pc: number(&line[452..460]),
        depth: number(&line[461..469]),
        count: number(&line[470..486]),
        return_type: number(&line[487..495]),
    }
}

// The sample in a line, in the memory that is lent for its parts.
pub(crate) fn sample_of<'a>(
    line: &Line,
    code: &'a mut [u8],
    kinds: &'a mut [u8],
    words: &'a mut [u32],
    handlers: &'a mut [u8],
    slots: &'a mut [u32],
) -> Sample<'a> {
    let method = Method {
        code: numbers(code, &line[44..172], 2, number(&line[41..43])),
        kinds: numbers(kinds, &line[175..191], 2, number(&line[173..174])),
        words: numbers(words, &line[194..258], 8, number(&line[192..193])),
        handlers: numbers(handlers, &line[262..342], 2, number(&line[259..261])),
    };
    Sample {
        method,
        slots: numbers(slots, &line[345..441], 8, number(&line[343..344])),
        state: state_of(line),
    }
}
