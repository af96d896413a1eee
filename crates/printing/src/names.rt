// The name of a sample, which blanks fill up to its columns.
ghost use Rattle.std.specs.Prelude.{◌≡◌, ◌==◌, position};
ghost use Rattle.std.specs.List.{before_first};

// Where the first blank stands.
fn first_blank(text: &[u8]) -> Option<usize>
    ensures { result ≡ position (λ byte. byte == 32) text.now }
{
    text.iter().position(|byte| *byte == b' ')
}

// The bytes before the first blank.
pub fn first_word(text: &[u8]) -> &[u8]
    ensures { result.now ≡ before_first (λ byte. byte == 32) text.now }
{
    match first_blank(text) {
        Some(end) => &text[..end],
        None => text,
    }
}
