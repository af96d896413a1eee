// How a run ended, as a line. Java leaves the bits of a NaN open; for its answers a NaN is shown as such.
use printing::Ending;
use rules::{End, Halt};
use std::io;
use values::Value;

// Prints how a run ended, the bits of a NaN only if they are asked for.
// No `is_nan`: `f32::from_bits` takes the bits of no NaN.
pub(crate) fn print_line(rt: &impl Print, end: End, bits: bool) -> io::Result<()> {
    match end {
        Some(Halt::Return(Value::Float(word))) if !bits && word % 0x8000_0000 > 0x7F80_0000 => {
            println!(rt; "return float nan")
        }
        Some(Halt::Return(Value::Double(word)))
            if !bits && word % 0x8000_0000_0000_0000 > 0x7FF0_0000_0000_0000 => {
            println!(rt; "return double nan")
        }
        _ => println!(rt; "{}", Ending(end)),
    }
}
