// The memory that a sheet is loaded into, allocated.
ghost use Rattle.std.specs.Prelude.{◌≡◌, IfOk, replicate};

use crate::Pool;
use std::alloc::{AllocError, Global};

// Slots, and a constant pool.
#[derive(Drop)]
pub struct Memory {
    pub slots: Vec<u32>,
    pub pool: Pool,
}

impl Memory {
    // So many slots, and a pool of so many entries, all of them 0.
    pub fn zeroed(alloc: Global, slots: usize, entries: usize) -> Result<Memory, AllocError>
        ensures slots { IfOk result (λ memory. memory.slots.items ≡ replicate slots 0) }
        ensures kinds { IfOk result (λ memory. memory.pool.kinds.items ≡ replicate entries 0) }
        ensures words { IfOk result (λ memory. memory.pool.words.items ≡ replicate entries 0) }
    {
        Ok(Memory {
            slots: vec![in alloc; 0; slots]?,
            pool: Pool::filled(alloc, entries, 0, 0)?,
        })
    }
}

#[cfg(test)]
mod tests {
    use super::*;
    use std::test::Fail;

    #[test]
    fn makes_zeroed_memory(rt: HostRuntime) -> Result<(), Fail> {
        let memory = Memory::zeroed(rt.alloc(), 2, 3)?;
        assert_eq!(rt; memory.slots.as_slice(), [0, 0].as_slice());
        assert_eq!(rt; memory.pool.kinds.as_slice(), [0, 0, 0].as_slice());
        assert_eq!(rt; memory.pool.words.as_slice(), [0, 0, 0].as_slice());
        Ok(())
    }
}
