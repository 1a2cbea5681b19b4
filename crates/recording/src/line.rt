// A breath's line of a recording: three tick marks parted by tabs; and where any line ends.
ghost use Rattle.std.specs.Prelude.{◌≡◌, ◌+◌, ◌≤◌, length, take};
ghost use Rattle.text.specs.Scan.{length_before, parted};
ghost use Rattle.recording.specs.Lines.{digits_from, read_tick, from_ticks, from_fields, read_line};
ghost use Rattle.recording.specs.Steps.{LeadingDigits, tick_of, is_begun, TickFound, BreathFound};

use crate::stop;
use breaths::Breath;
use text::length_before;

// The longest line of a recording, with its line feed.
pub const LONGEST_LINE: usize = 33;

// The most digits of a tick mark.
const MOST_DIGITS: usize = 10;

// A breath, and how many bytes its line uses, the line feed included.
#[derive(Clone, Copy)]
pub struct Entry {
    pub breath: Breath,
    pub used: usize,
}

// The number of some digits, and how many they are.
#[derive(Clone, Copy)]
struct Digits {
    value: u64,
    count: usize,
}

// The digits at the start of some bytes. Ten digits fit 64 bits, and no tick mark has more.
fn leading_digits(bytes: &[u8]) -> Digits
    requires { length bytes.now ≤ 10 }
    ensures { LeadingDigits bytes.now result.value result.count }
{
    let mut value: u64 = 0;
    for (i, b) in bytes.iter().enumerate() {
        if !b.is_ascii_digit() {
            return Digits { value, count: i };
        }
        value = value * 10 + (*b - b'0') as u64;
    }
    Digits {
        value,
        count: bytes.len(),
    }
}

// The tick mark that is a number, where it is none above the largest.
fn tick_of(value: u64) -> Option<u32>
    ensures { result ≡ tick_of value }
{
    u32::try_from(value).ok()
}

// The number of some digits, where it is a tick mark.
fn read_digits(digits: &[u8]) -> Option<u32>
    requires { length digits.now ≤ 10 }
    ensures { result ≡ digits_from 0 digits.now }
{
    let d = leading_digits(digits);
    if d.count < digits.len() {
        return None;
    }
    tick_of(d.value)
}

// Whether a field is begun as a tick mark is: it isn't empty, and no 0 stands in front of another byte.
pub(crate) fn is_begun(field: &[u8]) -> bool
    ensures { result ≡ is_begun field.now }
{
    match field {
        [] => false,
        [first, ..] => (*first != b'0') | (field.len() == 1),
    }
}

// The tick mark that a field is, if it is one.
pub(crate) fn read_tick(field: &[u8]) -> Option<u32>
    ensures { result ≡ read_tick field.now }
{
    if !is_begun(field) {
        return None;
    }
    if MOST_DIGITS < field.len() {
        return None;
    }
    read_digits(field)
}

// The breath of three fields; or the number of a stop.
fn from_ticks(
    used: usize,
    onset: Option<u32>,
    peak: Option<u32>,
    next: Option<u32>,
) -> Result<Entry, u64>
    ensures { result ≡ from_ticks used onset peak next }
{
    let o = onset.ok_or(stop::TICK)?;
    let p = peak.ok_or(stop::TICK)?;
    let n = next.ok_or(stop::TICK)?;
    let breath = Breath::between(o, p, n);
    Ok(Entry { breath, used })
}

// What the line says, its line feed taken away, that used so many bytes. (Where there is no tab,
// `length_before` answers the length, as the definition does: text's clause.)
fn read_fields(used: usize, line: &[u8]) -> Result<Entry, u64>
    ensures { result ≡ from_fields used (parted 9 line.now) }
{
    let i = length_before(line, b'\t');
    if i == line.len() {
        return Err(stop::FIELDS);
    }
    let rest = &line[i + 1..];
    let j = length_before(rest, b'\t');
    if j == rest.len() {
        return Err(stop::FIELDS);
    }
    let last = &rest[j + 1..];
    if length_before(last, b'\t') < last.len() {
        return Err(stop::FIELDS);
    }
    from_ticks(
        used,
        read_tick(&line[..i]),
        read_tick(&rest[..j]),
        read_tick(last),
    )
}

// How many bytes stand before the line feed at the start of some bytes; as many as there are, or as the
// longest line has, where it isn't among them.
pub(crate) fn line_length(bytes: &[u8]) -> usize
    ensures { result ≡ length_before 10 (take 33 bytes.now) }
{
    let most = bytes.len().min(LONGEST_LINE);
    length_before(&bytes[..most], b'\n')
}

// The breath's line at the start of some bytes, whatever is wrong with it.
pub(crate) fn read_any(bytes: &[u8]) -> Result<Entry, u64>
    ensures { result ≡ read_line bytes.now }
{
    let k = line_length(bytes);
    if (bytes.len() <= k) | (LONGEST_LINE <= k) {
        return Err(stop::LONG);
    }
    read_fields(k + 1, &bytes[..k])
}

// The tick mark from a place on that the byte `end` ends goes into the lent number; the answer is the
// place behind both, where there is one. It has room: ten digits and that byte. (The next tick is found
// from a place in a register; the number isn't waited for.)
fn read_tick_at(bytes: &[u8], from: usize, end: u8, tick: &mut u32) -> Option<usize>
    requires { from + 11 ≤ length bytes.now }
    ensures { TickFound bytes.now from end tick.new result }
{
    let d = leading_digits(&bytes[from..from + MOST_DIGITS]);
    let k = from + d.count;
    if bytes[k] != end {
        return None;
    }
    let value = tick_of(d.value)?;
    if !is_begun(&bytes[from..k]) {
        return None;
    }
    *tick = value;
    Some(k + 1)
}

// The breath at the start of some bytes, in one pass; none where this finds none. Where they hold the
// longest line, three tick marks of ten digits and the bytes that end them, none runs out of them.
pub(crate) fn read_breath(bytes: &[u8]) -> Option<Entry>
    ensures { BreathFound bytes.now result }
{
    if bytes.len() < LONGEST_LINE {
        return None;
    }
    let (mut onset, mut peak, mut next) = (0, 0, 0);
    let second = read_tick_at(bytes, 0, b'\t', &mut onset)?;
    let third = read_tick_at(bytes, second, b'\t', &mut peak)?;
    let used = read_tick_at(bytes, third, b'\n', &mut next)?;
    let breath = Breath::between(onset, peak, next);
    Some(Entry { breath, used })
}
