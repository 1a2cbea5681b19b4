// Words of a fixed format: sign, numerator of k bits, mark, denominator of k bits.
ghost use Rattle.std.specs.Prelude.{◌≡◌, ◌≤◌, ◌<◌, ◌^◌};
ghost use Rattle.slash.specs.Bits.{bit_of};
ghost use Rattle.slash.specs.Reading.{fixed_fields, fixed_value, fixed_number};
ghost use Rattle.slash.specs.Writing.{fixed_word};

use crate::bits::{bit_of, field, flag, pack};
use crate::fields::FixedFields;
use crate::number::{Parts, Value};

fn parts_value(negative: bool, n: u64, d: u64) -> Value
    ensures { result ≡ fixed_value negative n d }
{
    if n == 0 {
        if d % 2 == 1 {
            Value::Zero(negative)
        } else {
            Value::NotANumber
        }
    } else {
        if d == 0 {
            if n % 2 == 1 {
                Value::Infinity(negative)
            } else {
                Value::NotANumber
            }
        } else {
            Value::Fraction(Parts {
                negative,
                numerator: n,
                denominator: d,
            })
        }
    }
}

// How the bits of a word are laid out: in fields of k bits, but for the sign and the mark.
#[derive(Clone, Copy)]
pub(crate) struct Layout {
    pub(crate) k: u64,
    ghost most: { k ≤ 31 },
}

impl Layout {
    // The sign lies k bits above the numerator's lowest: one addition less, so that what reads a word
    // stays small enough to be put in place of its call.
    pub(crate) fn value(self, w: u64) -> Value
        ensures { result ≡ (fixed_number self.k w).value }
    {
        let k = self.k;
        parts_value(flag(w >> (k + 1), k), field(w, k + 1, k), field(w, 0, k))
    }

    pub(crate) fn fields(self, w: u64) -> FixedFields
        ensures { result ≡ fixed_fields self.k w }
    {
        let k = self.k;
        FixedFields {
            negative: flag(w, 2 * k + 1),
            numerator: field(w, k + 1, k),
            approximate: flag(w, k),
            denominator: field(w, 0, k),
        }
    }

    pub(crate) fn is_approximate(self, w: u64) -> bool
        ensures { result ≡ (fixed_number self.k w).approximate }
    {
        flag(w, self.k)
    }

    pub(crate) fn word(self, negative: bool, approximate: bool, n: u64, d: u64) -> u64
        requires { (n < 2 ^ self.k) × (d < 2 ^ self.k) }
        ensures { result ≡ fixed_word self.k (bit_of negative) n (bit_of approximate) d }
    {
        let k = self.k;
        pack(bit_of(negative), n, k, bit_of(approximate), 1, d, k)
    }
}
