// The frame: the locals, and after them the operand stack.
ghost use Rattle.std.specs.Prelude.{◌≡◌, ◌+◌};

// How many slots a frame has.
pub fn frame_size(max_locals: u16, max_stack: u16) -> usize
    ensures { result ≡ max_locals + max_stack }
{
    usize::from(max_locals) + usize::from(max_stack)
}
