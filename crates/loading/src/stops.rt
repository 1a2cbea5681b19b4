// The stops of a listing's lines, by number, as `Stop` holds them.
ghost use Rattle.std.specs.Prelude.{◌≡◌};

use slash::Stop;

// A line that isn't so shaped, or isn't ended.
pub(crate) const SHAPE: u64 = 13;

// A line out of sequence: another number, a line more or less, another total of no breaths.
pub(crate) const SEQUENCE: u64 = 14;

// A word that isn't listable, or disagrees with its columns.
pub(crate) const WORD: u64 = 15;

// A stop at a line.
pub(crate) fn stop_at(number: u64, line: u64) -> Stop
    ensures { result ≡ record { number = number; place = line } }
{
    Stop {
        number,
        place: line,
    }
}
