// A sheet loaded into memory that holds junk.
use printing::checksum;
use rules::{Loaded, Refusal};
use std::io;
use walks::LentMemory;

// Fills with junk: a first item, and each next one made of the one before it.
fn fill_junk<T: Copy + Drop, F: Fn(T) -> T>(items: &mut [T], first: T, next: F)
    requires { F.IsAlwaysCallable next }
{
    let mut junk = first;
    for item in items {
        *item = junk;
        junk = next(junk);
    }
}

// Fills with junk words from a first one on.
fn fill_words(words: &mut [u32], first: u32) {
    fill_junk(words, first, |word| word.wrapping_add(1));
}

// Prints what a load answers: the sizes of the frame, and where the code and the handlers lie, or the refusal.
fn print_answer(rt: &impl Print, loaded: Result<Loaded, Refusal>) -> io::Result<()> {
    match loaded {
        Err(refusal) => print!(rt; " refused {}", refusal.number()),
        Ok(loaded) => print!(rt;
            " accepted {} {} {} {} {} {}",
            loaded.state.max_stack,
            loaded.state.max_locals,
            loaded.code,
            loaded.code_length,
            loaded.handlers,
            loaded.handlers_length
        ),
    }
}

// Prints the checksum of bytes or words under a name.
fn print_sum<T: Copy + Into<u32>>(rt: &impl Print, name: &str, items: &[T]) -> io::Result<()> {
    let sum = checksum(items.iter().map(|item| (*item).into()));
    print!(rt; " {name} {sum:08X}")
}

// Loads a sheet into junk, and prints the answer and checksums of what the load left; a refused one has no code and no handlers.
pub(crate) fn load_and_print(
    rt: &impl Print,
    sheet: &[u8],
    memory: &mut LentMemory,
) -> io::Result<()> {
    fill_words(memory.slots, 0xBEEF_0000);
    fill_junk(memory.pool.kinds, 1, |byte| byte.wrapping_add(7));
    fill_words(memory.pool.words, 0xDEAD_0000);
    let loaded = memory.pool.load(sheet, memory.slots);
    print_answer(rt, loaded)?;
    print_sum(rt, "kinds", memory.pool.kinds)?;
    print_sum(rt, "words", memory.pool.words)?;
    print_sum(rt, "slots", memory.slots)?;
    match loaded {
        Err(_) => {
            print_sum::<u8>(rt, "code", &[])?;
            print_sum::<u8>(rt, "handlers", &[])?;
        }
        Ok(loaded) => {
            let method = memory.pool.method(sheet, loaded);
            print_sum(rt, "code", method.code)?;
            print_sum(rt, "handlers", method.handlers)?;
        }
    }
    println!(rt)
}
