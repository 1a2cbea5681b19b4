// Twisted storage: a floating word rearranged so that its numerator stands at the right, and the way
// back, of one word and at each place of a vector.

#![tactic(auto)]

mod each;
mod layout;
mod twisting;

pub use each::{twist_each, untwist_each};
pub use twisting::{twist, untwist};
