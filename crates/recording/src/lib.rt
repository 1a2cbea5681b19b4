// A night's recording: its lines, read one by one.

#![tactic(auto)]

mod line;
mod measure;
mod opening;
mod reading;
mod stop;

pub use line::{Entry, LONGEST_LINE};
pub use opening::{Opening, first_line};
pub use reading::{check, next_breath};
