// The constant pool that a load fills, lent.
use rules::{Loaded, Method, Refusal};
use sheet::{code_of, handlers_of, load};

// The entries of a constant pool, as a program lends them: their kinds, and their words.
#[derive(Drop)]
pub struct LentPool<'a> {
    pub kinds: &'a mut [u8],
    pub words: &'a mut [u32],
}

impl<'a> LentPool<'a> {
    ghost use Rattle.std.specs.Prelude.{◌≡◌, MatchResult, length, replicate};
    ghost use Rattle.std.specs.Prelude.Result.{Ok, Err};
    ghost use Rattle.rules.specs.Sheet.{load_of, code_of, handlers_of};
    ghost use Rattle.sheet.specs.Filled.{after_load};

    // All that is lent, each entry of one kind and of one word.
    pub fn filled(kinds: &'a mut [u8], words: &'a mut [u32], kind: u8, word: u32) -> LentPool<'a>
        ensures kinds { result.kinds.now ≡ replicate (length kinds.old) kind }
        ensures words { result.words.now ≡ replicate (length words.old) word }
    {
        kinds.fill(kind);
        words.fill(word);
        LentPool { kinds, words }
    }

    // Loads a sheet: where its parts lie, or why it is refused. The programs print a refusal themselves: a function that did
    // would give an option, and to take that apart is longer than the arm of `match` that prints.
    pub fn load(&mut self, sheet: &[u8], slots: &mut [u32]) -> Result<Loaded, Refusal>
        ensures { MatchResult result
            (λ loaded. (loaded.answer ≡ Ok tt) × (after_load loaded slots.new self.new.kinds.now self.new.words.now ≡ load_of sheet.now slots.old self.old.kinds.now self.old.words.now))
            (λ refusal. (loaded : Loaded) × (loaded.answer ≡ Err refusal) × (after_load loaded slots.new self.new.kinds.now self.new.words.now ≡ load_of sheet.now slots.old self.old.kinds.now self.old.words.now)) }
    {
        let loaded = load(sheet, slots, self.kinds, self.words);
        loaded.answer.map(|()| loaded)
    }

    // The method of a sheet that was loaded.
    pub fn method<'b>(&'b self, sheet: &'b [u8], loaded: Loaded) -> Method<'b>
        ensures code { result.code.now ≡ code_of sheet.now loaded }
        ensures kinds { result.kinds.now ≡ self.now.kinds.now }
        ensures words { result.words.now ≡ self.now.words.now }
        ensures handlers { result.handlers.now ≡ handlers_of sheet.now loaded }
    {
        Method {
            code: code_of(sheet, loaded),
            kinds: self.kinds,
            words: self.words,
            handlers: handlers_of(sheet, loaded),
        }
    }
}

#[cfg(test)]
mod tests {
    use super::*;
    use std::test::Fail;

    #[test]
    fn fills_a_pool(rt: HostRuntime) -> Result<(), Fail> {
        let mut kinds = [0; 2];
        let mut words = [0; 2];
        let pool = LentPool::filled(&mut kinds, &mut words, 3, 0xDEAD_DEAD);
        assert_eq!(rt; &*pool.kinds, [3, 3].as_slice());
        assert_eq!(rt; &*pool.words, [0xDEAD_DEAD, 0xDEAD_DEAD].as_slice());
        Ok(())
    }
}
