// A record: what it holds, how it is read, and its word.
ghost use Rattle.std.specs.Prelude.{◌≡◌, ◌+◌, ◌≤◌, length};
ghost use Rattle.slash.specs.Answers.{done, ◌then◌};
ghost use Rattle.slash.specs.Steps.{or_zero};
ghost use Rattle.importing.specs.Floats.{are_timings, float_ratio};
ghost use Rattle.importing.specs.Records.{number_at, record_of, content_of, content_ratio, record_word};
ghost use Rattle.importing.specs.Steps.{bits_of, imported_content, InOrder, KeepsRules, rounded_ratio};

use crate::float::ratio_of;
use crate::{float, stop};
use breaths::Ratio;
use slash::Stop;

// Seconds of breathing in, and of the whole breath.
#[derive(Clone, Copy)]
pub(crate) struct Timings {
    pub(crate) inspiration: f32,
    pub(crate) whole: f32,
}

// What an imported record holds. That it keeps the rules is asked where its ratio is taken, and no part of
// the types: each kind would need a struct of its own for its rule.
#[derive(Clone, Copy)]
pub(crate) enum Imported {
    Timings(Timings),
    Ratio(f32),
}

impl Timings {
    // The ratio of breathing in to whole breath, from the floats' bits.
    pub(crate) fn ratio(self) -> Ratio
        requires { InOrder (bits_of self.inspiration) (bits_of self.whole) }
        ensures { result ≡ rounded_ratio (float_ratio (bits_of self.inspiration) (bits_of self.whole)) }
    {
        ratio_of(self.inspiration.to_bits(), self.whole.to_bits())
    }
}

impl Imported {
    // The ratio that a record holds: of its timings, or a number over 1.
    pub(crate) fn ratio(self) -> Ratio
        requires { KeepsRules (imported_content self) }
        ensures { result ≡ rounded_ratio (content_ratio (imported_content self)) }
    {
        match self {
            Imported::Timings(t) => t.ratio(),
            Imported::Ratio(x) => ratio_of(x.to_bits(), float::ONE),
        }
    }
}

// The number of four bytes, lowest first.
fn number_at(bytes: &[u8], at: usize) -> u32
    requires { at + 4 ≤ length bytes.now }
    ensures { result ≡ number_at bytes.now at }
{
    u32::from_le_bytes([bytes[at], bytes[at + 1], bytes[at + 2], bytes[at + 3]])
}

// Whether two numbers run from 2^-10 to below 2^10, the first no larger than the second. Numbers without
// the sign are in the order of their bits, and all other bits are beyond them: so the tests are on the
// bits, and no float is made of bits that break the rules.
fn are_timings(first: u32, second: u32) -> bool
    ensures { result ≡ are_timings first second }
{
    (float::LEAST <= first) & (first <= second) & (second < float::BEYOND)
}

// Kind 1.
fn read_timings(first: u32, second: u32) -> Result<Imported, Stop>
    ensures { (result then λ i. done (imported_content i)) ≡ content_of (record { kind = 1; first = first; second = second }) }
{
    if !are_timings(first, second) {
        return Err(Stop::plain(stop::NUMBER));
    }
    let inspiration = f32::from_bits(first);
    let whole = f32::from_bits(second);
    Ok(Imported::Timings(Timings { inspiration, whole }))
}

// Kind 2. The ratio is in order with 1.
fn read_ratio(first: u32, second: u32) -> Result<Imported, Stop>
    ensures { (result then λ i. done (imported_content i)) ≡ content_of (record { kind = 2; first = first; second = second }) }
{
    if !are_timings(first, float::ONE) || second != 0 {
        return Err(Stop::plain(stop::NUMBER));
    }
    Ok(Imported::Ratio(f32::from_bits(first)))
}

// The record that some bytes begin with.
pub(crate) fn read_record(bytes: &[u8]) -> Result<Imported, Stop>
    requires { 12 ≤ length bytes.now }
    ensures { (result then λ i. done (imported_content i)) ≡ content_of (record_of bytes.now) }
{
    let kind = number_at(bytes, 0);
    let first = number_at(bytes, 4);
    let second = number_at(bytes, 8);
    match kind {
        1 => read_timings(first, second),
        2 => read_ratio(first, second),
        _ => Err(Stop::plain(stop::KIND)),
    }
}

// Its word, or 0 where it is refused: none is when words are stored, since all records were checked before.
pub(crate) fn word_of(bytes: &[u8]) -> u64
    requires { 12 ≤ length bytes.now }
    ensures { result ≡ or_zero (record_word (record_of bytes.now)) }
{
    match read_record(bytes) {
        Ok(i) => i.ratio().word(),
        Err(_) => 0,
    }
}
