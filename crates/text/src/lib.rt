// The text of a listing: numbers, columns, lines, each stored into a lent list.

#![tactic(auto)]

mod columns;
mod line;
mod number;
mod scan;

pub use line::{LONGEST_LINE, MOST_BREATHS, Name, put_line, refused_line};
pub use scan::{is_same, length_before};
