// A night's recording read from a reader, its listing written to a writer.

#![tactic(auto)]

mod input;
mod report;
mod run;

pub use run::{Cut, list, night};
