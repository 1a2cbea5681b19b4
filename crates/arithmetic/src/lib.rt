// Arithmetic on slash words: the four binary operations, on two words and at each place of two
// vectors, and comparison. The exact result is worked first and then rounded once.

#![tactic(auto)]

mod comparison;
mod each;
mod finite;
mod operand;
mod operation;

pub use comparison::{Order, compare};
pub use each::binary_each;
pub use operation::{binary, is_binary};
