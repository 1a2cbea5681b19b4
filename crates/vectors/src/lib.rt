// What the vector forms of the operations share: the check of all words before any store. (An
// operation at each place is a definition, `each`.)

#![tactic(auto)]

mod check;

pub use check::{check_pairs, check_words};
