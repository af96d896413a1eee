// What a sample is lent of the memory.
use crate::samples::Sizes;
use walks::{LentMemory, LentPool};

// The first slots and entries, as many as a sample wants; none where there are fewer.
pub(crate) fn lend<'a>(
    slots: &'a mut [u32],
    kinds: &'a mut [u8],
    words: &'a mut [u32],
    sizes: Sizes,
) -> Option<LentMemory<'a>> {
    let slots = slots.get_mut(..sizes.slots)?;
    let kinds = kinds.get_mut(..sizes.kinds)?;
    let words = words.get_mut(..sizes.words)?;
    let pool = LentPool { kinds, words };
    Some(LentMemory { slots, pool })
}
