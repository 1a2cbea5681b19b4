// Requests on formats, words and rounding.
use crate::show::{Full, Told, Word, done};
use slash::{Fields, Format, Number, Parts, Value};
use std::io::Write;
use std::{fmt, io};

// f KIND K: what the check of the format tells, then the width and the largest parts.
pub(crate) fn format<W: Write>(out: &mut W, kind: u64, k: u64) -> io::Result<()> {
    write!(out, "{} ", done(Format { kind, k }.check()))?;
    match Format::make(kind, k) {
        Ok(f) => write!(
            out,
            "{} {} {}",
            Told(f.width()),
            Told(f.largest_numerator()),
            Told(f.largest_denominator())
        ),
        Err(stop) => write!(out, "{}", Full(stop)),
    }
}

// A sign, and a space.
fn sign(negative: bool) -> &'static str {
    if negative { "- " } else { "+ " }
}

// A space, and 1 for an approximate value or a negative one.
fn bit(set: bool) -> &'static str {
    if set { " 1" } else { " 0" }
}

// What a word says: its value, and 1 where it is approximate.
#[derive(Drop)]
struct Said(Number);

impl fmt::Display for Said {
    fn fmt<W: fmt::Write>(&self, f: &mut fmt::Formatter<W>) -> fmt::Result {
        match self.0.value {
            Value::Fraction(p) => write!(
                f,
                "{}{}/{}",
                sign(p.negative),
                p.numerator,
                p.denominator
            ),
            Value::Zero(negative) => write!(f, "{}zero", sign(negative)),
            Value::Infinity(negative) => write!(f, "{}infinity", sign(negative)),
            Value::NotANumber => write!(f, "nan"),
        }?;
        f.write_str(bit(self.0.approximate))
    }
}

// The fields of a word, the highest first.
fn show_fields<W: Write>(out: &mut W, fields: Fields) -> io::Result<()> {
    match fields {
        Fields::Fixed(x) => write!(
            out,
            "{} {}{} {}",
            bit(x.negative),
            x.numerator,
            bit(x.approximate),
            x.denominator
        ),
        Fields::Floating(x) => write!(
            out,
            "{}{} {} {}",
            bit(x.negative),
            bit(x.approximate),
            x.position,
            x.field
        ),
    }
}

// r KIND K WORD: what a word says, and its fields.
pub(crate) fn read<W: Write>(out: &mut W, f: Format, w: u64) -> io::Result<()> {
    write!(out, "{}", Told(slash::read(f, w).map(Said)))?;
    match slash::check(f, w) {
        Ok(good) => show_fields(out, good.fields()),
        Err(_) => Ok(()),
    }
}

// CLASS 0 is a fraction, 1 zero, 2 infinity, and any other not-a-number.
pub(crate) fn value(class: u64, negative: bool, numerator: u64, denominator: u64) -> Value {
    match class {
        0 => Value::Fraction(Parts {
            negative,
            numerator,
            denominator,
        }),
        1 => Value::Zero(negative),
        2 => Value::Infinity(negative),
        _ => Value::NotANumber,
    }
}

// w KIND K CLASS SIGN N D MARK: the canonical word, in hexadecimal.
pub(crate) fn write<W: Write>(
    out: &mut W,
    f: Format,
    value: Value,
    approximate: bool,
) -> io::Result<()> {
    let x = Number { value, approximate };
    write!(out, "{}", Told(slash::write(f, x).map(Word)))
}

// n KIND K N D: a ratio rounded.
pub(crate) fn round<W: Write>(out: &mut W, f: Format, n: u64, d: u64) -> io::Result<()> {
    match slash::round(f, n, d) {
        Ok(r) => write!(
            out,
            "{}/{}{}",
            r.numerator,
            r.denominator,
            bit(r.approximate)
        ),
        Err(stop) => write!(out, "{}", Full(stop)),
    }
}
