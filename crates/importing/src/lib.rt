// Records of the scoring package, imported as slash words.

#![tactic(auto)]

mod float;
mod import;
mod record;
mod stop;

pub use import::import_records;
