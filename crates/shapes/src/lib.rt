// The shape of a line of a listing.

#![tactic(auto)]

mod field;
mod shape;
mod word;

pub use shape::{Said, shape_of};
pub use word::read_word;
