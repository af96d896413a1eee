// What the programs share that load sheets, and walk and run their methods: LentMemory, LentPool and walk. Memory and Pool are for callers with an allocator.
#![tactic(auto)]

mod lent_memory;
mod lent_pools;
mod memory;
mod pools;
mod walking;

pub use lent_memory::LentMemory;
pub use lent_pools::LentPool;
pub use memory::Memory;
pub use pools::Pool;
pub use walking::walk;
