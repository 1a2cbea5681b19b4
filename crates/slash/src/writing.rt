// Writing a number: its canonical word in a format.
ghost use Rattle.std.specs.Prelude.{◌≡◌, true, false};
ghost use Rattle.convergents.specs.Pairs.{pair};
ghost use Rattle.convergents.specs.Rounding.{held};
ghost use Rattle.slash.specs.Answers.{WhenDone};
ghost use Rattle.slash.specs.Formats.{known, holds, format_of};
ghost use Rattle.slash.specs.Steps.{parts_word};
ghost use Rattle.slash.specs.Writing.{pair_word, nan_word, word_for, is_over_zero, write_number, exact_ratio};
ghost use Rattle.slash.specs.Best.{BestForRatio, BestForValue};

use crate::answer::Stop;
use crate::format::Format;
use crate::known::Known;
use crate::number::{Number, Value, parts_of};
use crate::rounding::last_held;
use crate::{fixed, floating};

// The canonical word of a held pair n/d in lowest terms: 0/1 for zero, 1/0 for infinity.
fn pair_word(f: Known, negative: bool, approximate: bool, n: u64, d: u64) -> u64
    requires { held (holds f.format) (pair n d) ≡ true }
    ensures { result ≡ pair_word f.format negative approximate (pair n d) }
{
    let k = f.format.k;
    if f.format.kind == Format::FIXED {
        fixed::Layout { k }.word(negative, approximate, n, d)
    } else {
        floating::Layout { k }.word(negative, approximate, n, d)
    }
}

// The one word of not-a-number.
fn nan_word(f: Known) -> u64
    ensures { result ≡ nan_word f.format }
{
    if f.format.kind == Format::FIXED {
        0
    } else {
        floating::Layout { k: f.format.k }.not_a_number()
    }
}

// The word of some parts: n/d is rounded into the format, and marked if it was or rounding changed
// its value; n/0 is infinity, 0/0 not-a-number. All of them go by this one way, in plain numbers and not
// in structs, since these stay in registers.
fn parts_word(kind: u64, k: u64, negative: bool, approximate: bool, n: u64, d: u64) -> u64
    requires { known (format_of kind k) ≡ true }
    ensures { result ≡ parts_word (format_of kind k) negative approximate n d }
{
    let f = Known {
        format: Format { kind, k },
    };
    if d == 0 {
        if n == 0 {
            return nan_word(f);
        }
        return pair_word(f, negative, approximate, 1, 0);
    }
    let r = last_held(f, n, d);
    let marked = approximate | r.approximate;
    pair_word(f, negative, marked, r.numerator, r.denominator)
}

fn value_word(f: Known, approximate: bool, v: Value) -> u64
    requires { is_over_zero v ≡ false }
    ensures { result ≡ word_for f.format approximate v }
{
    let p = parts_of(v);
    parts_word(
        f.format.kind,
        f.format.k,
        p.negative,
        approximate,
        p.numerator,
        p.denominator,
    )
}

fn is_over_zero(v: Value) -> bool
    ensures { result ≡ is_over_zero v }
{
    match v {
        Value::Fraction(p) => p.denominator == 0,
        _ => false,
    }
}

// The canonical word of a number in a format: a fraction is rounded into it.
pub fn write(f: Format, x: Number) -> Result<u64, Stop>
    ensures written { result ≡ write_number f x }
    ensures best { WhenDone result (λ w. BestForValue f x.value w) }
{
    f.check()?;
    let v = x.value;
    if is_over_zero(v) {
        return Err(Stop::plain(Stop::DENOMINATOR));
    }
    Ok(value_word(Known { format: f }, x.approximate, v))
}

// The word of n/d, exact, rounded into a format.
pub fn round_word(f: Format, n: u64, d: u64) -> Result<u64, Stop>
    ensures written { result ≡ write_number f (exact_ratio n d) }
    ensures best { WhenDone result (λ w. BestForRatio f n d w) }
{
    f.check()?;
    if d == 0 {
        return Err(Stop::plain(Stop::DENOMINATOR));
    }
    Ok(parts_word(f.kind, f.k, false, false, n, d))
}
