// What the presses of lists came to, counted.
use std::fmt;

// How many lists and presses were made, and what the presses came to.
#[derive(Clone, Copy, Default)]
pub(crate) struct Tally {
    lists: u64,
    presses: u64,
    forwards: u64,
    backs: u64,
    refused: u64,
    outcomes: u64,
}

// One more.
fn count(n: &mut u64) {
    *n = n.wrapping_add(1);
}

impl Tally {
    // Counts a press, by its byte and the number of its answer, as the C interface has them.
    fn count_press(&mut self, byte: u8, number: u32) {
        count(&mut self.presses);
        match (number, byte) {
            (0, 0) => count(&mut self.backs),
            (0, _) => count(&mut self.forwards),
            (1..=100, _) => count(&mut self.refused),
            _ => count(&mut self.outcomes),
        }
    }

    // Counts a list that was made, by its presses and their answers.
    pub(crate) fn count_list(&mut self, presses: &[u8], answers: &[[u32; 3]]) {
        count(&mut self.lists);
        for (byte, answer) in presses.iter().zip(answers) {
            self.count_press(*byte, answer[0]);
        }
    }
}

impl fmt::Display for Tally {
    fn fmt<W: fmt::Write>(&self, f: &mut fmt::Formatter<W>) -> fmt::Result {
        write!(
            f,
            "lists {} presses {} forwards {} backs {} refused {} outcomes {}",
            self.lists, self.presses, self.forwards, self.backs, self.refused, self.outcomes
        )
    }
}
