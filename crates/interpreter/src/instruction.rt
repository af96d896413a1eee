// An instruction of a method, at its offset in the code.
ghost use Rattle.std.specs.Prelude.{◌≡◌, ◌≤◌, true, length};
ghost use Rattle.instructions.specs.Table.{is_in};
ghost use Rattle.effects.specs.Families.{shared_opcodes};

use crate::finishing::Located;
use rules::Method;

// One that questions 1 to 8 have passed.
#[derive(Clone, Copy)]
pub(crate) struct Instruction<'a> {
    pub(crate) method: &'a Method<'a>,
    pub(crate) pc: u32,
    pub(crate) located: Located,
    pub ghost short: { length method.now.code.now ≤ 65535 },
    pub ghost shared: { is_in shared_opcodes located.op ≡ true },
}
