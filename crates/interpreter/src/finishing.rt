// What a step comes to, from what its instruction does: the next offset, with question 10, and where the words go.
ghost use Rattle.std.specs.Prelude.{◌≡◌, true, ◌≤◌};
ghost use Rattle.values.specs.Kinds.{int};
ghost use Rattle.values.specs.Words.{meaning};
ghost use Rattle.rules.specs.Step.{first_place};
ghost use Rattle.interpreter.specs.Stages.{offset_at, update_to, branch_of, finish_of, stores_to, located_of};

use crate::instruction::Instruction;
use effects::Effect;
use frame::Placed;
use instructions::Decoded;
use instructions::opcodes::*;
use operands::{inside, jump_relative, lookup_offset, table_offset};
use rules::{Decision, Halt, Six, Update};

// An instruction that questions 4 to 8 have passed: its shared opcode, index and constant, the offset after it, its first place on
// the stack, the new depth, and where its words go and how many.
#[derive(Clone, Copy)]
pub(crate) struct Located {
    pub op: u8,
    pub index: u32,
    pub constant: u32,
    pub next: usize,
    pub base: u32,
    pub depth: u32,
    pub first: u32,
    pub many: u32,
}

// Whether a shared opcode writes its local: the stores and IINC.
fn is_store(op: u8) -> bool
    ensures { result ≡ stores_to op }
{
    matches!(op, ISTORE | LSTORE | IINC)
}

// An instruction that is decoded and placed, with the offset after it.
#[tactic(auto, unfolding(crate::specs::Stages::located_of))]
pub(crate) fn locate(i: Decoded, next: usize, placed: Placed) -> Located
    ensures { result ≡ located_of i.entry i.index i.constant next placed.base placed.depth }
{
    let op = i.entry.shared;
    let on_stack = Located {
        op,
        index: i.index,
        constant: i.constant,
        next,
        base: placed.base,
        depth: placed.depth,
        first: placed.base,
        many: u32::from(i.entry.pushes),
    };
    if is_store(op) {
        return Located {
            first: i.index,
            many: u32::from(i.entry.locals),
            ..on_stack
        };
    }
    on_stack
}

// Where nothing is written the first place is 0.
fn first_place(first: u32, many: u32) -> u32
    ensures { result ≡ first_place first many }
{
    if many == 0 { 0 } else { first }
}

// An ordinary step to an offset, with the first of some words written from a place on.
fn update_to(to: usize, depth: u32, first: u32, many: u32, words: Six) -> Update
    requires { to ≤ 65535 }
    ensures { result ≡ update_to to depth first many words }
{
    Update {
        pc: to as u32,
        depth,
        first: first_place(first, many),
        many,
        // word by word: moved as one it was tried, they go packed in pairs, and a step of the int loop took 3.6 machine instructions more
        words: Six {
            w0: words.w0,
            w1: words.w1,
            w2: words.w2,
            w3: words.w3,
            w4: words.w4,
            w5: words.w5,
        },
    }
}

impl Instruction<'_> {
    // The offset of a branch that is taken: a switch looks its key up in the code, any other has it as its constant.
    #[tactic(auto, unfolding(crate::specs::Stages::offset_at))]
    fn offset(&self, key: u32) -> u32
        ensures { meaning int result ≡ offset_at self.now.method.now.code.now self.now.pc self.now.located.op self.now.located.constant key }
    {
        let code = self.method.code;
        match self.located.op {
            TABLESWITCH => table_offset(code, self.pc, key),
            LOOKUPSWITCH => lookup_offset(code, self.pc, key),
            _ => self.located.constant,
        }
    }

    // A branch that is taken.
    #[tactic(auto, unfolding(crate::specs::Stages::branch_of))]
    fn jump(&self, key: u32) -> Decision
        ensures { result ≡ branch_of self.now.method.now.code.now self.now.pc self.now.located key true }
    {
        let to = jump_relative(self.method.code, self.pc, self.offset(key))?;
        Ok(update_to(to, self.located.depth, 0, 0, Six::default()))
    }

    // A branch, taken or not; `key` is the first word that it works on.
    #[tactic(auto, unfolding(crate::specs::Stages::branch_of))]
    fn branch(&self, key: u32, taken: bool) -> Decision
        ensures { result ≡ branch_of self.now.method.now.code.now self.now.pc self.now.located key taken }
    {
        if taken {
            return self.jump(key);
        }
        let to = inside(self.method.code, self.located.next)?;
        Ok(update_to(to, self.located.depth, 0, 0, Six::default()))
    }

    // What the step comes to, of what the instruction does; `key` is the first word that it works on.
    #[tactic(auto, unfolding(crate::specs::Stages::finish_of))]
    pub(crate) fn finish(&self, key: u32, does: Effect) -> Decision
        ensures { result ≡ finish_of self.now.method.now.code.now self.now.pc self.now.located key does }
    {
        let i = self.located;
        match does {
            Effect::Words(w) => {
                let to = inside(self.method.code, i.next)?;
                Ok(update_to(to, i.depth, i.first, i.many, w))
            }
            Effect::Throw => Err(Halt::Throw),
            Effect::Branch(taken) => self.branch(key, taken),
            Effect::Return(v) => Err(Halt::Return(v)),
        }
    }
}
