// Whole lines: items under a name, and a state.
ghost use Rattle.std.specs.Prelude.{All, IfOk};
ghost use Rattle.std.specs.Fn.{FnReturnsAt};

use rules::State;
use std::io;

// Prints items under a name, each as the closure prints it, or a dash where there are none; where it gives Ok, the closure's answer for each of
// them is Ok. The name is any bytes, here and of words: text would ask more of the caller.
pub fn print_list<T, F: Fn(&T) -> io::Result<()>>(
    rt: &impl Print,
    name: &[u8],
    items: &[T],
    print_item: F,
) -> io::Result<()>
    requires { F.IsAlwaysCallable print_item }
    ensures { IfOk result (λ _. All (λ item. FnReturnsAt F.Fn print_item item (Ok tt)) items.now) }
{
    rt.write_all(name)?;
    if items.is_empty() {
        print!(rt; " -")?;
    }
    for item in items {
        print_item(item)?;
    }
    println!(rt)
}

// Prints words under a name.
pub fn print_words(rt: &impl Print, name: &[u8], words: &[u32]) -> io::Result<()> {
    print_list(rt, name, words, |word| print!(rt; " {word:08X}"))
}

// Prints a state.
pub fn print_state(rt: &impl Print, s: State) -> io::Result<()> {
    println!(rt;
        "state {} {} {} {} {} {}",
        s.max_stack, s.max_locals, s.pc, s.depth, s.count, s.return_type
    )
}
