// The table of the instructions: an entry an opcode, which a step reads once, and twice for WIDE.
ghost use Rattle.std.specs.Prelude.{◌≡◌};
ghost use Rattle.rules.specs.Instructions.{row_of};
ghost use Rattle.instructions.specs.Table.{entry_of};

use crate::forms::Entry;
use crate::forms::Format::*;
use crate::opcodes::*;

// An entry in one line: its format, its shared opcode, and the places of its local, those popped and those pushed.
macro_rules! row {
    ($format:expr, $shared:expr, $locals:expr, $pops:expr, $pushes:expr) => {
        Some(Entry {
            format: $format,
            shared: $shared,
            locals: $locals,
            pops: $pops,
            pushes: $pushes,
        })
    };
}

// The entries, by opcode. An opcode outside the core has none.
static TABLE: [Option<Entry>; 256] = [
    row!(Alone, NOP, 0, 0, 0), // nop
    row!(Alone, ACONST_NULL, 0, 0, 1), // aconst_null
    row!(Alone, ICONST_M1, 0, 0, 1), // iconst_m1
    row!(Alone, ICONST_0, 0, 0, 1), // iconst_0
    row!(Alone, ICONST_1, 0, 0, 1), // iconst_1
    row!(Alone, ICONST_2, 0, 0, 1), // iconst_2
    row!(Alone, ICONST_3, 0, 0, 1), // iconst_3
    row!(Alone, ICONST_4, 0, 0, 1), // iconst_4
    row!(Alone, ICONST_5, 0, 0, 1), // iconst_5
    row!(Alone, LCONST_0, 0, 0, 2), // lconst_0
    row!(Alone, LCONST_1, 0, 0, 2), // lconst_1
    row!(Alone, FCONST_0, 0, 0, 1), // fconst_0
    row!(Alone, FCONST_1, 0, 0, 1), // fconst_1
    row!(Alone, FCONST_2, 0, 0, 1), // fconst_2
    row!(Alone, DCONST_0, 0, 0, 2), // dconst_0
    row!(Alone, DCONST_1, 0, 0, 2), // dconst_1
    row!(Byte, BIPUSH, 0, 0, 1), // bipush
    row!(Short, BIPUSH, 0, 0, 1), // sipush
    row!(Index, LDC, 0, 0, 1), // ldc
    row!(Index2, LDC, 0, 0, 1), // ldc_w
    row!(Index2, LDC2_W, 0, 0, 2), // ldc2_w
    row!(Index, ILOAD, 1, 0, 1), // iload
    row!(Index, LLOAD, 2, 0, 2), // lload
    row!(Index, ILOAD, 1, 0, 1), // fload
    row!(Index, LLOAD, 2, 0, 2), // dload
    row!(Index, ILOAD, 1, 0, 1), // aload
    row!(Implied(0), ILOAD, 1, 0, 1), // iload_0
    row!(Implied(1), ILOAD, 1, 0, 1), // iload_1
    row!(Implied(2), ILOAD, 1, 0, 1), // iload_2
    row!(Implied(3), ILOAD, 1, 0, 1), // iload_3
    row!(Implied(0), LLOAD, 2, 0, 2), // lload_0
    row!(Implied(1), LLOAD, 2, 0, 2), // lload_1
    row!(Implied(2), LLOAD, 2, 0, 2), // lload_2
    row!(Implied(3), LLOAD, 2, 0, 2), // lload_3
    row!(Implied(0), ILOAD, 1, 0, 1), // fload_0
    row!(Implied(1), ILOAD, 1, 0, 1), // fload_1
    row!(Implied(2), ILOAD, 1, 0, 1), // fload_2
    row!(Implied(3), ILOAD, 1, 0, 1), // fload_3
    row!(Implied(0), LLOAD, 2, 0, 2), // dload_0
    row!(Implied(1), LLOAD, 2, 0, 2), // dload_1
    row!(Implied(2), LLOAD, 2, 0, 2), // dload_2
    row!(Implied(3), LLOAD, 2, 0, 2), // dload_3
    row!(Implied(0), ILOAD, 1, 0, 1), // aload_0
    row!(Implied(1), ILOAD, 1, 0, 1), // aload_1
    row!(Implied(2), ILOAD, 1, 0, 1), // aload_2
    row!(Implied(3), ILOAD, 1, 0, 1), // aload_3
    // 46 to 53
    None,
    None,
    None,
    None,
    None,
    None,
    None,
    None,
    row!(Index, ISTORE, 1, 1, 0), // istore
    row!(Index, LSTORE, 2, 2, 0), // lstore
    row!(Index, ISTORE, 1, 1, 0), // fstore
    row!(Index, LSTORE, 2, 2, 0), // dstore
    row!(Index, ISTORE, 1, 1, 0), // astore
    row!(Implied(0), ISTORE, 1, 1, 0), // istore_0
    row!(Implied(1), ISTORE, 1, 1, 0), // istore_1
    row!(Implied(2), ISTORE, 1, 1, 0), // istore_2
    row!(Implied(3), ISTORE, 1, 1, 0), // istore_3
    row!(Implied(0), LSTORE, 2, 2, 0), // lstore_0
    row!(Implied(1), LSTORE, 2, 2, 0), // lstore_1
    row!(Implied(2), LSTORE, 2, 2, 0), // lstore_2
    row!(Implied(3), LSTORE, 2, 2, 0), // lstore_3
    row!(Implied(0), ISTORE, 1, 1, 0), // fstore_0
    row!(Implied(1), ISTORE, 1, 1, 0), // fstore_1
    row!(Implied(2), ISTORE, 1, 1, 0), // fstore_2
    row!(Implied(3), ISTORE, 1, 1, 0), // fstore_3
    row!(Implied(0), LSTORE, 2, 2, 0), // dstore_0
    row!(Implied(1), LSTORE, 2, 2, 0), // dstore_1
    row!(Implied(2), LSTORE, 2, 2, 0), // dstore_2
    row!(Implied(3), LSTORE, 2, 2, 0), // dstore_3
    row!(Implied(0), ISTORE, 1, 1, 0), // astore_0
    row!(Implied(1), ISTORE, 1, 1, 0), // astore_1
    row!(Implied(2), ISTORE, 1, 1, 0), // astore_2
    row!(Implied(3), ISTORE, 1, 1, 0), // astore_3
    // 79 to 86
    None,
    None,
    None,
    None,
    None,
    None,
    None,
    None,
    row!(Alone, POP, 0, 1, 0), // pop
    row!(Alone, POP2, 0, 2, 0), // pop2
    row!(Alone, DUP, 0, 1, 2), // dup
    row!(Alone, DUP_X1, 0, 2, 3), // dup_x1
    row!(Alone, DUP_X2, 0, 3, 4), // dup_x2
    row!(Alone, DUP2, 0, 2, 4), // dup2
    row!(Alone, DUP2_X1, 0, 3, 5), // dup2_x1
    row!(Alone, DUP2_X2, 0, 4, 6), // dup2_x2
    row!(Alone, SWAP, 0, 2, 2), // swap
    row!(Alone, IADD, 0, 2, 1), // iadd
    row!(Alone, LADD, 0, 4, 2), // ladd
    row!(Alone, FADD, 0, 2, 1), // fadd
    row!(Alone, DADD, 0, 4, 2), // dadd
    row!(Alone, ISUB, 0, 2, 1), // isub
    row!(Alone, LSUB, 0, 4, 2), // lsub
    row!(Alone, FSUB, 0, 2, 1), // fsub
    row!(Alone, DSUB, 0, 4, 2), // dsub
    row!(Alone, IMUL, 0, 2, 1), // imul
    row!(Alone, LMUL, 0, 4, 2), // lmul
    row!(Alone, FMUL, 0, 2, 1), // fmul
    row!(Alone, DMUL, 0, 4, 2), // dmul
    row!(Alone, IDIV, 0, 2, 1), // idiv
    row!(Alone, LDIV, 0, 4, 2), // ldiv
    row!(Alone, FDIV, 0, 2, 1), // fdiv
    row!(Alone, DDIV, 0, 4, 2), // ddiv
    row!(Alone, IREM, 0, 2, 1), // irem
    row!(Alone, LREM, 0, 4, 2), // lrem
    row!(Alone, FREM, 0, 2, 1), // frem
    row!(Alone, DREM, 0, 4, 2), // drem
    row!(Alone, INEG, 0, 1, 1), // ineg
    row!(Alone, LNEG, 0, 2, 2), // lneg
    row!(Alone, FNEG, 0, 1, 1), // fneg
    row!(Alone, DNEG, 0, 2, 2), // dneg
    row!(Alone, ISHL, 0, 2, 1), // ishl
    row!(Alone, LSHL, 0, 3, 2), // lshl
    row!(Alone, ISHR, 0, 2, 1), // ishr
    row!(Alone, LSHR, 0, 3, 2), // lshr
    row!(Alone, IUSHR, 0, 2, 1), // iushr
    row!(Alone, LUSHR, 0, 3, 2), // lushr
    row!(Alone, IAND, 0, 2, 1), // iand
    row!(Alone, LAND, 0, 4, 2), // land
    row!(Alone, IOR, 0, 2, 1), // ior
    row!(Alone, LOR, 0, 4, 2), // lor
    row!(Alone, IXOR, 0, 2, 1), // ixor
    row!(Alone, LXOR, 0, 4, 2), // lxor
    row!(IndexConst, IINC, 1, 0, 0), // iinc
    row!(Alone, I2L, 0, 1, 2), // i2l
    row!(Alone, I2F, 0, 1, 1), // i2f
    row!(Alone, I2D, 0, 1, 2), // i2d
    row!(Alone, L2I, 0, 2, 1), // l2i
    row!(Alone, L2F, 0, 2, 1), // l2f
    row!(Alone, L2D, 0, 2, 2), // l2d
    row!(Alone, F2I, 0, 1, 1), // f2i
    row!(Alone, F2L, 0, 1, 2), // f2l
    row!(Alone, F2D, 0, 1, 2), // f2d
    row!(Alone, D2I, 0, 2, 1), // d2i
    row!(Alone, D2L, 0, 2, 2), // d2l
    row!(Alone, D2F, 0, 2, 1), // d2f
    row!(Alone, I2B, 0, 1, 1), // i2b
    row!(Alone, I2C, 0, 1, 1), // i2c
    row!(Alone, I2S, 0, 1, 1), // i2s
    row!(Alone, LCMP, 0, 4, 1), // lcmp
    row!(Alone, FCMPL, 0, 2, 1), // fcmpl
    row!(Alone, FCMPG, 0, 2, 1), // fcmpg
    row!(Alone, DCMPL, 0, 4, 1), // dcmpl
    row!(Alone, DCMPG, 0, 4, 1), // dcmpg
    row!(Short, IFEQ, 0, 1, 0), // ifeq
    row!(Short, IFNE, 0, 1, 0), // ifne
    row!(Short, IFLT, 0, 1, 0), // iflt
    row!(Short, IFGE, 0, 1, 0), // ifge
    row!(Short, IFGT, 0, 1, 0), // ifgt
    row!(Short, IFLE, 0, 1, 0), // ifle
    row!(Short, IF_ICMPEQ, 0, 2, 0), // if_icmpeq
    row!(Short, IF_ICMPNE, 0, 2, 0), // if_icmpne
    row!(Short, IF_ICMPLT, 0, 2, 0), // if_icmplt
    row!(Short, IF_ICMPGE, 0, 2, 0), // if_icmpge
    row!(Short, IF_ICMPGT, 0, 2, 0), // if_icmpgt
    row!(Short, IF_ICMPLE, 0, 2, 0), // if_icmple
    row!(Short, IF_ACMPEQ, 0, 2, 0), // if_acmpeq
    row!(Short, IF_ACMPNE, 0, 2, 0), // if_acmpne
    row!(Short, GOTO, 0, 0, 0), // goto
    // 168 and 169
    None,
    None,
    row!(Table, TABLESWITCH, 0, 1, 0), // tableswitch
    row!(Pairs, LOOKUPSWITCH, 0, 1, 0), // lookupswitch
    row!(Alone, IRETURN, 0, 1, 0), // ireturn
    row!(Alone, LRETURN, 0, 2, 0), // lreturn
    row!(Alone, FRETURN, 0, 1, 0), // freturn
    row!(Alone, DRETURN, 0, 2, 0), // dreturn
    row!(Alone, ARETURN, 0, 1, 0), // areturn
    row!(Alone, RETURN, 0, 0, 0), // return
    // 178 to 195
    None,
    None,
    None,
    None,
    None,
    None,
    None,
    None,
    None,
    None,
    None,
    None,
    None,
    None,
    None,
    None,
    None,
    None,
    row!(Widened, WIDE, 0, 0, 0), // wide
    // 197
    None,
    row!(Short, IFNULL, 0, 1, 0), // ifnull
    row!(Short, IFNONNULL, 0, 1, 0), // ifnonnull
    row!(Branch4, GOTO, 0, 0, 0), // goto_w
    // 201 to 255
    None,
    None,
    None,
    None,
    None,
    None,
    None,
    None,
    None,
    None,
    None,
    None,
    None,
    None,
    None,
    None,
    None,
    None,
    None,
    None,
    None,
    None,
    None,
    None,
    None,
    None,
    None,
    None,
    None,
    None,
    None,
    None,
    None,
    None,
    None,
    None,
    None,
    None,
    None,
    None,
    None,
    None,
    None,
    None,
    None,
    None,
    None,
    None,
    None,
    None,
    None,
    None,
    None,
    None,
    None,
];

// The entry of an opcode.
pub fn entry(opcode: u8) -> Option<Entry>
    ensures { result ≡ entry_of (row_of opcode) }
{
    TABLE[usize::from(opcode)]
}
