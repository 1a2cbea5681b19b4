// How long a breath's line is, found without its numbers: reading a recording through needs no more. (The
// functions of `line` that are like these make the numbers too. One for both would be told whether to make
// them, and each clause would speak of both.)
ghost use Rattle.std.specs.Prelude.{◌+◌, ◌≤◌, length};
ghost use Rattle.recording.specs.Steps.{DigitCount, TickEndFound, LineLengthFound};

use crate::line::{LONGEST_LINE, is_begun};

// So many digits are no number above the largest tick mark.
const SURE_DIGITS: usize = 9;

// How many digits stand at the start of some bytes.
fn count_digits(bytes: &[u8]) -> usize
    ensures { DigitCount bytes.now result }
{
    for (i, b) in bytes.iter().enumerate() {
        if !b.is_ascii_digit() {
            return i;
        }
    }
    bytes.len()
}

// The place behind the tick mark from a place on and the byte `end` that ends it, where it is found. Nine
// digits are no number above the largest; more are left to the reader of numbers.
fn tick_end(bytes: &[u8], from: usize, end: u8) -> Option<usize>
    requires { from + 11 ≤ length bytes.now }
    ensures { TickEndFound bytes.now from end result }
{
    let k = from + count_digits(&bytes[from..from + SURE_DIGITS]);
    if bytes[k] != end {
        return None;
    }
    if !is_begun(&bytes[from..k]) {
        return None;
    }
    Some(k + 1)
}

// How many bytes the breath's line at the start of some bytes takes, where it is found.
pub(crate) fn breath_length(bytes: &[u8]) -> Option<usize>
    ensures { LineLengthFound bytes.now result }
{
    if bytes.len() < LONGEST_LINE {
        return None;
    }
    let second = tick_end(bytes, 0, b'\t')?;
    let third = tick_end(bytes, second, b'\t')?;
    tick_end(bytes, third, b'\n')
}
