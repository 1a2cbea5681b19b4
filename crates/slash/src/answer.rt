// How every call of the library answers.
ghost use Rattle.std.specs.Prelude.{◌≡◌};

// A stop: its number, and its place (an index from 0, a line from 1, else 0). The number isn't an enum:
// `plain` takes any, `text::refused_line` prints any, and C gets it as it is.
#[derive(Clone, Copy)]
pub struct Stop {
    pub number: u64,
    pub place: u64,
}

impl Stop {
    // Unknown kind or k.
    pub const FORMAT: u64 = 1;

    // Unknown operation code.
    pub const CODE: u64 = 2;

    // Vectors of unequal length.
    pub const LENGTH: u64 = 3;

    // A word with bits above its width.
    pub const WIDTH: u64 = 4;

    // An undefined slash position.
    pub const SLASH: u64 = 5;

    // Denominator 0 given to rounding.
    pub const DENOMINATOR: u64 = 6;

    // A quotient list shorter than the quotients.
    pub const LIST: u64 = 7;

    // A stop that names no index and no line.
    pub fn plain(number: u64) -> Stop
        ensures { result ≡ record { number = number; place = 0 } }
    {
        Stop { number, place: 0 }
    }
}
