// The unary operations, on one word and at each place of a vector.

#![tactic(auto)]

mod each;
mod operation;
mod sign;

pub use each::unary_each;
pub use operation::{is_unary, unary};
