// A recording's rate, a breath's durations, a night's sums of them, and their ratios as slash words.

#![tactic(auto)]

mod breath;
mod proportion;
mod rate;
mod ratio;
mod sums;

pub use breath::{Breath, stored_word};
pub use rate::Rate;
pub use ratio::Ratio;
pub use sums::Sums;
