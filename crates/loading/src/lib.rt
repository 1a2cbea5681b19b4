// Listings read back, and the listing of words.

#![tactic(auto)]

mod fill;
mod first;
mod line;
mod listable;
mod load;
mod print;
mod stops;

pub use load::{Counted, load_text};
pub use print::print_words;
