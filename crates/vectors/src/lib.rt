// What the programs share that run vectors: how many were run, and how many of them differ.
#![tactic(auto)]

ghost use Rattle.std.specs.Prelude.{◌≡◌, ◌+◌, ◌-◌, ◌^◌, min, if◌then◌else◌};

use std::fmt;

// How many vectors were run, and how many of them differ or are malformed.
#[derive(Clone, Copy, Default)]
pub struct Tally {
    pub vectors: u64,
    pub differ: u64,
}

impl Tally {
    // Counts one more vector.
    pub fn count(&mut self, is_right: bool)
        ensures vectors { self.new.vectors ≡ min (self.old.vectors + 1) (2 ^ 64 - 1) }
        ensures differ { self.new.differ ≡ (if is_right then self.old.differ else min (self.old.differ + 1) (2 ^ 64 - 1)) }
    {
        self.vectors = self.vectors.saturating_add(1);
        if !is_right {
            self.differ = self.differ.saturating_add(1);
        }
    }
}

impl fmt::Display for Tally {
    fn fmt<W: fmt::Write>(&self, f: &mut fmt::Formatter<W>) -> fmt::Result {
        write!(f, "{} vectors, {} differ", self.vectors, self.differ)
    }
}
