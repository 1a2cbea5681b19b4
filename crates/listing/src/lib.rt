// A night's listing, whole or in pieces as the bytes of its recording come.

#![tactic(auto)]

mod listing;
mod night;
mod piece;

pub use listing::list;
pub use night::{Night, RatedNight};
pub use piece::{End, Piece, list_piece};
