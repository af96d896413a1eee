// What stands at a place of a slice.
ghost use Rattle.std.specs.Prelude.{◌≡◌, get_or};

// The default where there is no such place: past the end of what is lent all reads as 0.
pub fn get_or<T: Copy>(slice: &[T], at: usize, default: T) -> T
    ensures { result ≡ get_or slice.now at default }
{
    slice.get(at).copied().unwrap_or(default)
}
