// Slash arithmetic: formats, words, rounding. Every public function takes whatever comes, and those
// that can stop answer in one way: Ok with what they make, or Err with the stop's number and place.

#![tactic(auto)]

mod answer;
mod bits;
mod fields;
mod fixed;
mod floating;
mod format;
mod known;
mod number;
mod reading;
mod rounding;
mod writing;

pub use answer::Stop;
pub use fields::{Fields, FixedFields, FloatingFields};
pub use format::Format;
pub use number::{Number, Parts, Value, is_nan, parts_of};
pub use reading::{GoodWord, check, read};
pub use rounding::{Rounded, round};
pub use writing::{round_word, write};
