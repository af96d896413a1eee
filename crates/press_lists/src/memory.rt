// What is lent beside a sample's log.
use crate::samples::Sizes;
use walks::LentPool;

// Slots for the list and for a run beside it, a constant pool, and the words of the answers.
#[derive(Drop)]
pub(crate) struct Memory<'a> {
    pub slots: &'a mut [u32],
    pub others: &'a mut [u32],
    pub pool: LentPool<'a>,
    pub answers: &'a mut [u32],
}

impl<'a> Memory<'a> {
    // The first places, as many as a sample wants, with junk in them; none where there are fewer.
    pub(crate) fn junk(self, sizes: Sizes) -> Option<Memory<'a>> {
        let Memory {
            slots,
            others,
            pool: LentPool { kinds, words },
            answers,
        } = self;
        let slots = slots.get_mut(..sizes.slots)?;
        let others = others.get_mut(..sizes.slots)?;
        let kinds = kinds.get_mut(..sizes.pool)?;
        let words = words.get_mut(..sizes.pool)?;
        let answers = answers.get_mut(..sizes.answers)?;
        slots.fill(0xBEEF_BEEF);
        others.fill(0xBEEF_BEEF);
        answers.fill(0xFACE_FACE);
        let pool = LentPool::filled(kinds, words, 0xAB, 0xDEAD_DEAD);
        Some(Memory {
            slots,
            others,
            pool,
            answers,
        })
    }
}
