// Conversion of words between formats, of one word and at each place of a vector. The number that a
// word says is rounded once.

#![tactic(auto)]

mod conversion;
mod each;

pub use conversion::convert;
pub use each::convert_each;
