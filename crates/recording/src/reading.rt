// A recording line by line: what comes next, and reading it through.
ghost use Rattle.std.specs.Prelude.{◌≡◌, suc};
ghost use Rattle.recording.specs.Reading.{next_of, check_on, recording_check};
ghost use Rattle.recording.specs.Steps.{next_length};

use crate::line::{Entry, read_any, read_breath};
use crate::measure::breath_length;
use crate::opening::first_line;
use crate::stop;
use slash::Stop;
use text::MOST_BREATHS;

// A stop at the line of a breath, which the rate line stands before.
fn stop_at(breath: u32, number: u64) -> Stop
    ensures { result ≡ record { number = number; place = suc breath } }
{
    Stop {
        number,
        place: breath as u64 + 1,
    }
}

// What comes next, whatever it is.
fn any_line(breath: u32, bytes: &[u8]) -> Result<Option<Entry>, Stop>
    ensures { result ≡ next_of breath bytes.now }
{
    if bytes.len() == 0 {
        return Ok(None);
    }
    if MOST_BREATHS < breath {
        return Err(stop_at(breath, stop::BREATHS));
    }
    match read_any(bytes) {
        Ok(entry) => Ok(Some(entry)),
        Err(number) => Err(stop_at(breath, number)),
    }
}

// What comes next behind the rate line, where the next breath has this number, from the bytes not yet
// read: a breath, or none where the recording ends. Where one pass finds no breath, the long way tells why.
pub fn next_breath(breath: u32, bytes: &[u8]) -> Result<Option<Entry>, Stop>
    ensures { result ≡ next_of breath bytes.now }
{
    if breath <= MOST_BREATHS {
        if let Some(entry) = read_breath(bytes) {
            return Ok(Some(entry));
        }
    }
    any_line(breath, bytes)
}

// The same where a breath's line is only measured: how many bytes it takes.
fn next_length(breath: u32, bytes: &[u8]) -> Result<Option<usize>, Stop>
    ensures { result ≡ next_length (next_of breath bytes.now) }
{
    if breath <= MOST_BREATHS {
        if let Some(used) = breath_length(bytes) {
            return Ok(Some(used));
        }
    }
    match next_breath(breath, bytes)? {
        Some(entry) => Ok(Some(entry.used)),
        None => Ok(None),
    }
}

// Reads the breaths' lines through: the first bad one stops it.
fn check_breaths(bytes: &[u8]) -> Result<(), Stop>
    ensures { result ≡ check_on 1 bytes.now }
{
    let mut breath = 1;
    let mut rest = bytes;
    while let Some(used) = next_length(breath, rest)? {
        breath += 1;
        rest = &rest[used..];
    }
    Ok(())
}

// Reads a recording through: the first bad line stops it.
pub fn check(recording: &[u8]) -> Result<(), Stop>
    ensures { result ≡ recording_check recording.now }
{
    match first_line(recording)? {
        Some(opening) => check_breaths(&recording[opening.used..]),
        None => Ok(()),
    }
}
