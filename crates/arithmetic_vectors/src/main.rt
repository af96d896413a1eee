// Runs vectors from standard input through the public functions of integers, floats and conversions, and counts those that
// differ, by function and in all. tools/vectors/arithmetic.py writes the vectors and says how a line is laid out.
#![tactic(auto)]

mod apply;

use reading::{hexadecimal, read_record};
use std::io;
use vectors::Tally;

// A line, its line feed included.
type Line = [u8; 64];

// More lines than any file of vectors has: the loop over them has to end.
const MOST: u64 = 1_000_000;

// The number in a field of at most 16 columns. Blanks may stand before the digits, and blanks alone are 0.
fn number(field: &[u8]) -> Option<u64> {
    match field.iter().position(|byte| *byte != b' ') {
        Some(first) => hexadecimal(&field[first..]),
        None => Some(0),
    }
}

// Whether the first operand and the result are there, a space stands between the columns, and a line feed at the end.
fn is_laid_out(line: &Line) -> bool {
    let are_there = line[28] != b' ' && line[62] != b' ';
    let are_apart = line[2] == b' ' && line[12] == b' ' && line[29] == b' ' && line[46] == b' ';
    are_there && are_apart && line[63] == b'\n'
}

// Whether a line with its fields holds; none where one is malformed.
fn fields_hold(line: &Line) -> Option<bool> {
    let op = u8::try_from(number(&line[..2])?).ok()?;
    let a = number(&line[13..29])?;
    let b = number(&line[30..46])?;
    let result = number(&line[47..63])?;
    Some(apply::holds(op, a, b, result))
}

// Whether a line is a vector that holds.
fn holds(line: &Line) -> bool {
    is_laid_out(line) && fields_hold(line).unwrap_or(false)
}

// The function whose vectors are read: its first line, and its tally.
#[derive(Clone, Copy)]
struct Function {
    first: Line,
    tally: Tally,
}

impl Function {
    // A function that a line begins.
    fn begun(first: Line) -> Function {
        Function {
            first,
            tally: Tally::default(),
        }
    }

    // Whether a line is a vector of it, by the opcode and the name.
    fn has(&self, line: &Line) -> bool {
        self.first[..12] == line[..12]
    }

    // Prints the name and the tally, if it had a vector.
    fn print(&self, rt: &impl Print) -> io::Result<()> {
        if self.tally.vectors == 0 {
            return Ok(());
        }
        rt.write_all(&self.first[3..13])?;
        println!(rt; "{}", self.tally)
    }
}

// Reads line by line, and prints the tally of a function when the next one begins.
fn main(rt: HostRuntime) -> io::Result<()> {
    let mut total = Tally::default();
    // Malformed lines are counted with the function before them, and those before the first under a blank name: so there is always one.
    let mut current = Function::begun([b' '; 64]);
    let mut stdin = rt.stdin();
    for _ in 0..MOST {
        let Some(line) = read_record(&mut stdin, b' ')? else {
            break;
        };
        if is_laid_out(&line) && !current.has(&line) {
            current.print(&rt)?;
            current = Function::begun(line);
        }
        let is_right = holds(&line);
        current.tally.count(is_right);
        total.count(is_right);
    }
    current.print(&rt)?;
    println!(rt; "{total}")
}
