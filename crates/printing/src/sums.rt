// Checksums of lent memory.
ghost use Rattle.std.specs.Prelude.{ℕ, List, ◌≡◌};
ghost use Rattle.std.specs.Iterator.{Drains, IsFinite};
ghost use Rattle.printing.specs.Checksum.{checksum_of};

// The checksum of the words that an iterator gives.
pub fn checksum<I: Iterator<Item = u32> + Drop>(words: I) -> u32
    requires can { I.can_next words }
    requires finite { IsFinite (I.remaining words) }
    ensures { (xs : List ℕ) × Drains I.next_gives words xs × (result ≡ checksum_of xs) }
{
    let mut sum: u32 = 0;
    for word in words {
        sum = sum.wrapping_mul(31).wrapping_add(word).wrapping_add(1);
    }
    sum
}
