// Negate and absolute value, which touch only the sign of a word.
ghost use Rattle.std.specs.Prelude.{◌≡◌, true, not, ◌&&◌, leb, ◌<◌};
ghost use Rattle.slash.specs.Bits.{bit};
ghost use Rattle.slash.specs.Formats.{of_known};
ghost use Rattle.slash.specs.Numbers.{is_nan};
ghost use Rattle.unary.specs.Signs.{with_highest, new_sign, sign_touched};

use slash::{Format, Stop, Value};

// Their codes.
pub(crate) const NEGATE: u64 = 1;

const ABSOLUTE: u64 = 2;

// w with its highest bit set or not, and every other bit as it was.
fn with_highest(highest: u64, set: bool, w: u64) -> u64
    requires { highest < 64 }
    ensures { result ≡ with_highest highest set w }
{
    let power = 1 << highest;
    let rest = w & (power - 1);
    if set { power + rest } else { rest }
}

#[tactic(auto, unfolding(crate::specs::Signs::new_sign, slash::specs::Bits::bit, slash::specs::Bits::bits))]
fn touch_highest(highest: u64, code: u64, w: u64) -> u64
    requires { highest < 64 }
    ensures { result ≡ with_highest highest (new_sign code (bit highest w)) w }
{
    let negative = (w >> highest) % 2 == 1;
    with_highest(highest, (code == NEGATE) & !negative, w)
}

// Code 1 turns the sign of a word, code 2 takes it off.
pub(crate) fn touch_sign(f: Format, code: u64, w: u64) -> Result<u64, Stop>
    ensures { result ≡ of_known f (sign_touched f code w) }
{
    let width = f.width()?;
    Ok(touch_highest(width - 1, code, w))
}

// Whether a code touches only the sign of a value.
pub(crate) fn is_sign_touch(code: u64, v: Value) -> bool
    ensures { result ≡ (leb code 2 && not (is_nan v)) }
{
    (code <= ABSOLUTE) & !slash::is_nan(v)
}
