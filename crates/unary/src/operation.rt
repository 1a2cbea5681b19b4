// The unary operations: negate, absolute value, reciprocal, floor, ceiling, mod 1, normalise.
ghost use Rattle.std.specs.Prelude.{◌≡◌, true, ◌≤◌, ◌<◌, ◌^◌};
ghost use Rattle.slash.specs.Answers.{WhenDone};
ghost use Rattle.slash.specs.Steps.{SmallParts};
ghost use Rattle.slash.specs.Formats.{known};
ghost use Rattle.slash.specs.Best.{BestForValue};
ghost use Rattle.slash.specs.Numbers.{signed_of};
ghost use Rattle.slash.specs.Reading.{number_of};
ghost use Rattle.unary.specs.Steps.{SmallValue};
ghost use Rattle.unary.specs.Operations.{over_one, exact_parts, exact_zero, exact_infinity, exact_unary, is_unary, unary_word};

use crate::sign::{NEGATE, is_sign_touch, touch_sign};
use slash::{Format, Number, Parts, Stop, Value};

// The codes of the operations, behind those that touch only the sign. They are numbers and no enum:
// `unary` and `unary_each` take any, with stop 2 for another.
const RECIPROCAL: u64 = 3;

const FLOOR: u64 = 4;

const CEILING: u64 = 5;

const MOD_1: u64 = 6;

const NORMALISE: u64 = 7;

// A sign and a size as one number.
fn to_signed(negative: bool, n: u64) -> i64
    requires { n < 2 ^ 62 }
    ensures { result ≡ signed_of negative n }
{
    if negative { -(n as i64) } else { n as i64 }
}

fn whole_parts(n: i64) -> Parts
    ensures { result ≡ over_one n }
{
    Parts {
        negative: n < 0,
        numerator: n.unsigned_abs(),
        denominator: 1,
    }
}

// The exact result of a fraction, by code: division goes toward minus infinity, and normalising keeps
// the value.
#[tactic(auto, unfolding(crate::specs::Operations::exact_parts, crate::specs::Operations::reciprocal_parts))]
fn exact_parts(code: u64, p: Parts) -> Parts
    requires { SmallParts p }
    ensures { result ≡ exact_parts code p }
{
    let n = to_signed(p.negative, p.numerator);
    let d = p.denominator as i64;
    match code {
        RECIPROCAL => Parts {
            negative: p.negative,
            numerator: p.denominator,
            denominator: p.numerator,
        },
        FLOOR => whole_parts(n.div_euclid(d)),
        CEILING => whole_parts(-(-n).div_euclid(d)),
        MOD_1 => Parts {
            negative: false,
            numerator: n.rem_euclid(d) as u64,
            denominator: p.denominator,
        },
        _ => p,
    }
}

#[tactic(auto, unfolding(crate::specs::Operations::exact_zero))]
fn exact_zero(code: u64, negative: bool) -> Value
    ensures { result ≡ exact_zero code negative }
{
    match code {
        RECIPROCAL => Value::Infinity(negative),
        NORMALISE => Value::Zero(negative),
        _ => Value::Zero(false),
    }
}

#[tactic(auto, unfolding(crate::specs::Operations::exact_infinity))]
fn exact_infinity(code: u64, negative: bool) -> Value
    ensures { result ≡ exact_infinity code negative }
{
    match code {
        RECIPROCAL => Value::Zero(negative),
        MOD_1 => Value::NotANumber,
        _ => Value::Infinity(negative),
    }
}

#[tactic(auto, unfolding(crate::specs::Operations::exact_unary))]
fn exact_value(code: u64, v: Value) -> Value
    requires { SmallValue v }
    ensures { result ≡ exact_unary code v }
{
    match v {
        Value::Fraction(p) => Value::Fraction(exact_parts(code, p)),
        Value::Zero(s) => exact_zero(code, s),
        Value::Infinity(s) => exact_infinity(code, s),
        Value::NotANumber => Value::NotANumber,
    }
}

// Whether there is such a code.
#[tactic(auto, unfolding(crate::specs::Operations::is_unary))]
pub fn is_unary(code: u64) -> bool
    ensures { result ≡ is_unary code }
{
    matches!(code, NEGATE..=NORMALISE)
}

// The word that a code makes of w, if that is good. (Put in place of its calls: as a call, a place of a vector
// that touches only a sign took a third as long again.)
#[inline(always)]
pub(crate) fn unary_word(f: Format, code: u64, w: u64) -> Result<u64, Stop>
    requires { (known f ≡ true) × (is_unary code ≡ true) }
    ensures { result ≡ unary_word f code w }
{
    let x = slash::check(f, w)?;
    let v = x.value();
    if is_sign_touch(code, v) {
        return touch_sign(f, code, w);
    }
    let exact = Number {
        value: exact_value(code, v),
        approximate: x.is_approximate(),
    };
    slash::write(f, exact)
}

// Code 1 negates w, 2 takes its absolute value, 3 its reciprocal, 4 its floor, 5 its ceiling, 6 is
// mod 1, 7 normalises.
pub fn unary(f: Format, code: u64, w: u64) -> Result<u64, Stop>
    ensures written { result ≡ unary_word f code w }
    ensures best { 3 ≤ code → WhenDone result (λ v. BestForValue f (exact_unary code (number_of f w).value) v) }
{
    f.check()?;
    if !is_unary(code) {
        return Err(Stop::plain(Stop::CODE));
    }
    unary_word(f, code, w)
}
