// The greatest common divisor of a word's stored parts.
ghost use Rattle.std.specs.Prelude.{◌≡◌};
ghost use Rattle.euclid.specs.Divisor.{gcd_of, value_gcd, gcd_word};

use slash::{Format, Stop, Value};

// Euclid's algorithm.
fn common_divisor(n: u64, d: u64) -> u64
    ensures { result ≡ gcd_of n d }
{
    let (mut u, mut v) = (n, d);
    while v != 0 {
        (u, v) = (v, u % v);
    }
    u
}

fn value_divisor(v: Value) -> u64
    ensures { result ≡ value_gcd v }
{
    match v {
        Value::Fraction(p) => common_divisor(p.numerator, p.denominator),
        Value::Zero(_) | Value::Infinity(_) | Value::NotANumber => 0,
    }
}

// The greatest common divisor of the stored parts of a word; 0 where it is no nonzero fraction.
pub fn gcd(f: Format, w: u64) -> Result<u64, Stop>
    ensures { result ≡ gcd_word f w }
{
    let x = slash::check(f, w)?;
    Ok(value_divisor(x.value()))
}
