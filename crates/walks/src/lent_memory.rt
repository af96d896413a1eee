// The memory that a sheet is loaded into, lent.
ghost use Rattle.std.specs.Prelude.{◌≡◌, length, replicate};

use crate::LentPool;

// Slots, and a constant pool, as a program lends them.
#[derive(Drop)]
pub struct LentMemory<'a> {
    pub slots: &'a mut [u32],
    pub pool: LentPool<'a>,
}

impl<'a> LentMemory<'a> {
    // All that is lent, 0 in each place.
    pub fn zeroed(slots: &'a mut [u32], kinds: &'a mut [u8], words: &'a mut [u32]) -> LentMemory<'a>
        ensures slots { result.slots.now ≡ replicate (length slots.old) 0 }
        ensures kinds { result.pool.kinds.now ≡ replicate (length kinds.old) 0 }
        ensures words { result.pool.words.now ≡ replicate (length words.old) 0 }
    {
        slots.fill(0);
        let pool = LentPool::filled(kinds, words, 0, 0);
        LentMemory { slots, pool }
    }
}

#[cfg(test)]
mod tests {
    use super::*;
    use std::test::Fail;

    #[test]
    fn makes_zeroed_memory(rt: HostRuntime) -> Result<(), Fail> {
        let mut slots = [1; 2];
        let mut kinds = [1; 3];
        let mut words = [1; 3];
        let LentMemory { slots, pool } = LentMemory::zeroed(&mut slots, &mut kinds, &mut words);
        assert_eq!(rt; &*slots, [0, 0].as_slice());
        assert_eq!(rt; &*pool.kinds, [0, 0, 0].as_slice());
        assert_eq!(rt; &*pool.words, [0, 0, 0].as_slice());
        Ok(())
    }
}
