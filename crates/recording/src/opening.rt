// The first line of a recording: its tick rate.
ghost use Rattle.std.specs.Prelude.{◌≡◌};
ghost use Rattle.text.specs.Scan.{parted};
ghost use Rattle.recording.specs.Openings.{from_rate, from_rate_fields, first_of};

use crate::line::{LONGEST_LINE, line_length, read_tick};
use crate::stop::LONG;
use breaths::Rate;
use slash::Stop;
use text::{is_same, length_before};

// A rate, and how many bytes its line uses, the line feed included.
#[derive(Clone, Copy)]
pub struct Opening {
    pub rate: Rate,
    pub used: usize,
}

// A stop at line 1.
fn stop_at_first(number: u64) -> Stop
    ensures { result ≡ record { number = number; place = 1 } }
{
    Stop { number, place: 1 }
}

fn from_rate(used: usize, tick: Option<u32>) -> Result<Option<Opening>, Stop>
    ensures { result ≡ from_rate used tick }
{
    let refused = stop_at_first(Rate::REFUSED);
    let ticks = tick.ok_or(refused)?;
    match Rate::make(ticks as u64) {
        Ok(rate) => Ok(Some(Opening { rate, used })),
        Err(_) => Err(refused),
    }
}

// What the line says, its line feed taken away, that used so many bytes.
fn read_rate(used: usize, line: &[u8]) -> Result<Option<Opening>, Stop>
    ensures { result ≡ from_rate_fields used (parted 9 line.now) }
{
    let i = length_before(line, b'\t');
    if i == line.len() {
        return Err(stop_at_first(Rate::REFUSED));
    }
    let rest = &line[i + 1..];
    if length_before(rest, b'\t') < rest.len() {
        return Err(stop_at_first(Rate::REFUSED));
    }
    if !is_same(&line[..i], b"rate") {
        return Err(stop_at_first(Rate::REFUSED));
    }
    from_rate(used, read_tick(rest))
}

// What a recording opens with, from its bytes: its rate, or none where it ends.
pub fn first_line(bytes: &[u8]) -> Result<Option<Opening>, Stop>
    ensures { result ≡ first_of bytes.now }
{
    if bytes.len() == 0 {
        return Ok(None);
    }
    let k = line_length(bytes);
    if (bytes.len() <= k) | (LONGEST_LINE <= k) {
        return Err(stop_at_first(LONG));
    }
    read_rate(k + 1, &bytes[..k])
}
