// The constant pool that a load fills, allocated. `filled` and `load` do not call those of LentPool, which say nothing of what was lent once the loan is over;
// `method` cannot, since a shared pool has no entries to lend for writing.
use rules::{Loaded, Method, Refusal};
use sheet::{code_of, handlers_of, load};
use std::alloc::{AllocError, Global};

// The entries of a constant pool: their kinds, and their words.
#[derive(Drop)]
pub struct Pool {
    pub kinds: Vec<u8>,
    pub words: Vec<u32>,
}

impl Pool {
    ghost use Rattle.std.specs.Prelude.{◌≡◌, IfOk, MatchResult, replicate};
    ghost use Rattle.std.specs.Prelude.Result.{Ok, Err};
    ghost use Rattle.rules.specs.Sheet.{load_of, code_of, handlers_of};
    ghost use Rattle.sheet.specs.Filled.{after_load};

    // So many entries, all of one kind and of one word.
    pub fn filled(alloc: Global, entries: usize, kind: u8, word: u32) -> Result<Pool, AllocError>
        ensures kinds { IfOk result (λ pool. pool.kinds.items ≡ replicate entries kind) }
        ensures words { IfOk result (λ pool. pool.words.items ≡ replicate entries word) }
    {
        Ok(Pool {
            kinds: vec![in alloc; kind; entries]?,
            words: vec![in alloc; word; entries]?,
        })
    }

    // Loads a sheet: where its parts lie, or why it is refused.
    pub fn load(&mut self, sheet: &[u8], slots: &mut [u32]) -> Result<Loaded, Refusal>
        ensures { MatchResult result
            (λ loaded. (loaded.answer ≡ Ok tt) × (after_load loaded slots.new self.new.kinds.items self.new.words.items ≡ load_of sheet.now slots.old self.old.kinds.items self.old.words.items))
            (λ refusal. (loaded : Loaded) × (loaded.answer ≡ Err refusal) × (after_load loaded slots.new self.new.kinds.items self.new.words.items ≡ load_of sheet.now slots.old self.old.kinds.items self.old.words.items)) }
    {
        let loaded = load(sheet, slots, &mut self.kinds, &mut self.words);
        loaded.answer.map(|()| loaded)
    }

    // The method of a sheet that was loaded.
    pub fn method<'a>(&'a self, sheet: &'a [u8], loaded: Loaded) -> Method<'a>
        ensures code { result.code.now ≡ code_of sheet.now loaded }
        ensures kinds { result.kinds.now ≡ self.now.kinds.items }
        ensures words { result.words.now ≡ self.now.words.items }
        ensures handlers { result.handlers.now ≡ handlers_of sheet.now loaded }
    {
        Method {
            code: code_of(sheet, loaded),
            kinds: &self.kinds,
            words: &self.words,
            handlers: handlers_of(sheet, loaded),
        }
    }
}

#[cfg(test)]
mod tests {
    use super::*;
    use std::test::Fail;

    #[test]
    fn fills_a_pool(rt: HostRuntime) -> Result<(), Fail> {
        let pool = Pool::filled(rt.alloc(), 2, 3, 0xDEAD_DEAD)?;
        assert_eq!(rt; pool.kinds.as_slice(), [3, 3].as_slice());
        assert_eq!(rt;
            pool.words.as_slice(),
            [0xDEAD_DEAD, 0xDEAD_DEAD].as_slice()
        );
        Ok(())
    }

    // a method that gives its one constant, and a second entry that no constant takes
    #[test]
    fn loads_a_sheet(rt: HostRuntime) -> Result<(), Fail> {
        let sheet =
            b"LM\0\x04\0\x01\0\0CD\0\x03\x12\x01\xACKI\0\x07\0\x01\x03\x01\x02\x03\x04AR\0\0";
        let mut pool = Pool::filled(rt.alloc(), 3, 0xAB, 0xDEAD_DEAD)?;
        let mut slots = [1; 2];
        let loaded = pool.load(sheet, &mut slots);
        assert!(rt; loaded.is_ok());
        if let Ok(loaded) = loaded {
            let method = pool.method(sheet, loaded);
            assert_eq!(rt; method.code, b"\x12\x01\xAC".as_slice());
            assert_eq!(rt; method.kinds, [0, 3, 0].as_slice());
            assert_eq!(rt; method.words, [0, 0x0102_0304, 0].as_slice());
            assert_eq!(rt; method.handlers, b"".as_slice());
        }
        assert_eq!(rt; slots, [0, 1]);
        Ok(())
    }

    #[test]
    fn refuses_a_cut_sheet(rt: HostRuntime) -> Result<(), Fail> {
        let mut pool = Pool::filled(rt.alloc(), 1, 0xAB, 0xDEAD_DEAD)?;
        let refused = pool.load(b"L", &mut []).err();
        assert_eq!(rt; refused.map(Refusal::number), Some(21));
        assert_eq!(rt; pool.kinds.as_slice(), [0xAB].as_slice());
        assert_eq!(rt; pool.words.as_slice(), [0xDEAD_DEAD].as_slice());
        Ok(())
    }
}
