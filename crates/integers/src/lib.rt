// Int and long arithmetic on words (JVMS 2.11.3, 2.11.4). An int is a u32 and a long a u64, in two's complement.
// Each promise is the formula of the instruction's row in the table.
#![tactic(auto)]

mod int;
mod integer;
mod long;
mod narrow;
mod order;
mod words;

pub use integer::Integer;
pub use narrow::{extended8, extended16, i2b, i2c, i2l, i2s, l2i};
pub use order::{cmpeq, cmpne, icmple, icmplt, lcmp, order_number};
pub use words::{high_word, join_words, low_word};
