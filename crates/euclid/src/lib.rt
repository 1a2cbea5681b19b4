// What Euclid's algorithm says of one word: the greatest common divisor of its stored parts, its
// partial quotients, and how many they are.

#![tactic(auto)]

mod divisor;
mod quotient;

pub use divisor::gcd;
pub use quotient::{quotient_count, quotients};
