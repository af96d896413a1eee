// Runs vectors from standard input through `decode` of instructions, the two switches of operands and `load_constant` of const_pool,
// and counts those that differ, by kind and in all. judge/src/lists/decoding writes the vectors and says how a line is laid out.
#![tactic(auto)]

mod answers;
mod fields;

use crate::fields::{Line, code_of, expected, is_laid_out, number, pool_of};
use reading::read_record;
use std::io;
use vectors::Tally;

// More lines than any file of vectors has: the loop over them has to end.
const MOST: u64 = 1_000_000;

// The kinds of vectors.
#[derive(Clone, Copy)]
enum Kind {
    Decode,
    Switch,
    Pool,
}

// The kind of a line, by the name at its start.
fn kind_of(line: &Line) -> Option<Kind> {
    match &line[..6] {
        b"decode" => Some(Kind::Decode),
        b"switch" => Some(Kind::Switch),
        b"pool  " => Some(Kind::Pool),
        _ => None,
    }
}

// Whether a vector of a kind holds; none where it is malformed. No key goes with an instruction.
fn vector_holds(line: &Line, kind: Kind) -> Option<bool> {
    let at = number(&line[7..15])?;
    let key = number(&line[16..24])?;
    let count = number(&line[55..57])?;
    let mut code = [0; 64];
    let mut kinds = [0; 12];
    let mut words = [0; 12];
    let answer = match kind {
        Kind::Decode if key != 0 => None,
        Kind::Decode => answers::instruction(code_of(&mut code, line, count)?, at),
        Kind::Switch => answers::branch(code_of(&mut code, line, count)?, at, key),
        Kind::Pool => {
            let pool = pool_of(&mut kinds, &mut words, line, count)?;
            answers::constant(&pool, at, key)
        }
    };
    let answer = answer.map(|found| found.map_err(|refusal| refusal.number()));
    Some(answer == Some(expected(line)?))
}

// Whether a line is a vector that holds.
fn holds(line: &Line, kind: Option<Kind>) -> bool {
    let Some(kind) = kind else {
        return false;
    };
    is_laid_out(line) && vector_holds(line, kind).unwrap_or(false)
}

// Reads line by line, and prints the tally of each kind and of all. A line of no kind counts among all only.
fn main(rt: HostRuntime) -> io::Result<()> {
    let mut decodes = Tally::default();
    let mut switches = Tally::default();
    let mut pools = Tally::default();
    let mut total = Tally::default();
    let mut stdin = rt.stdin();
    for _ in 0..MOST {
        let Some(line) = read_record(&mut stdin, b' ')? else {
            break;
        };
        let kind = kind_of(&line);
        let is_right = holds(&line, kind);
        match kind {
            Some(Kind::Decode) => decodes.count(is_right),
            Some(Kind::Switch) => switches.count(is_right),
            Some(Kind::Pool) => pools.count(is_right),
            None => {}
        }
        total.count(is_right);
    }
    println!(rt; "decode {decodes}")?;
    println!(rt; "switch {switches}")?;
    println!(rt; "pool   {pools}")?;
    println!(rt; "{total}")
}
