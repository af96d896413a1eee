// Words written one after another, and those of an update. `as usize` for a u32: `usize` has no `From<u32>`.
ghost use Rattle.std.specs.Prelude.{◌≡◌, ◌+◌, ◌≤◌, length};
ghost use Rattle.std.proofs.Math.Seq.{paste};
ghost use Rattle.rules.specs.Step.{update_words};

use rules::Update;

// The words of a slice, written from an index on.
pub fn write_words(target: &mut [u32], at: usize, words: &[u32])
    requires { at + length words.now ≤ length target.old }
    ensures { target.new ≡ paste target.old at words.now (length words.now) }
{
    target[at..at + words.len()].copy_from_slice(words);
}

// The words that an update has, written from an index on, where they are not one.
fn write_several(target: &mut [u32], at: usize, u: Update)
    requires { (u.many ≤ 6) × (at + u.many ≤ length target.old) }
    ensures { target.new ≡ paste target.old at (update_words u) u.many }
{
    if u.many == 2 {
        target[at] = u.words.w0;
        target[at + 1] = u.words.w1;
        return;
    }
    // a branch writes none: a copy of no words would be a call at each
    if u.many > 0 {
        let w = u.words;
        let words = [w.w0, w.w1, w.w2, w.w3, w.w4, w.w5];
        write_words(target, at, &words[..u.many as usize]);
    }
}

// The words that an update has, written from an index on. Most updates have one, and few more than two: by the slice alone it was tried, and a step
// of the int loop took 19.3 machine instructions more.
pub(crate) fn write_update(target: &mut [u32], at: usize, u: Update)
    requires { (u.many ≤ 6) × (at + u.many ≤ length target.old) }
    ensures { target.new ≡ paste target.old at (update_words u) u.many }
{
    if u.many == 1 {
        target[at] = u.words.w0;
        return;
    }
    write_several(target, at, u);
}
