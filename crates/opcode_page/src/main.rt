// Prints the page of opcodes (RULES, 'The page of opcodes'): a line for each of the 256.
#![tactic(auto)]

use instructions::opcode_line;
use std::io;

fn main(rt: HostRuntime) -> io::Result<()> {
    for opcode in 0..=255u8 {
        let line = opcode_line(opcode);
        println!(rt;
            "{} {} {} {}",
            line.opcode, line.length, line.popped, line.pushed
        )?;
    }
    Ok(())
}
