// Words of a floating format: sign, mark, slash position of L bits, field of k - 1 bits.
ghost use Rattle.std.specs.Prelude.{◌≡◌, ◌+◌, ◌-◌, ◌≤◌, ◌<◌, ◌^◌};
ghost use Rattle.slash.specs.Bits.{bit_of, bit_count};
ghost use Rattle.slash.specs.Formats.{slash_bits};
ghost use Rattle.slash.specs.Reading.{slash_position, slash_undefined, floating_fields, floating_fraction, floating_special, floating_number};
ghost use Rattle.slash.specs.Writing.{floating_word, floating_pair, floating_nan};

use crate::bits::{below, bit_count, bit_of, field, flag, pack, power};
use crate::fields::FloatingFields;
use crate::format::slash_bits;
use crate::number::{Parts, Value};

// The value at a slash position e that parts the field f in a numerator n and a denominator: f's last
// e bits, and the leading 1 that isn't stored.
fn fraction(negative: bool, e: u64, f: u64) -> Value
    requires { (e ≤ 30) × (f < 2 ^ 31) }
    ensures { result ≡ floating_fraction negative e f }
{
    let n = f >> e;
    if n == 0 {
        Value::Zero(negative)
    } else {
        Value::Fraction(Parts {
            negative,
            numerator: n,
            denominator: f - ((n - 1) << e),
        })
    }
}

fn special(negative: bool, f: u64) -> Value
    ensures { result ≡ floating_special negative f }
{
    if f % 2 == 0 {
        Value::Infinity(negative)
    } else {
        Value::NotANumber
    }
}

// How the bits of a word are laid out: a field of k - 1 bits, a slash position, a mark and a sign.
#[derive(Clone, Copy)]
pub(crate) struct Layout {
    pub(crate) k: u64,
    ghost least: { 2 ≤ k },
    ghost most: { k ≤ 32 },
}

impl Layout {
    fn slash_position(self, w: u64) -> u64
        ensures { result ≡ slash_position self.k w }
    {
        field(w, self.k - 1, slash_bits(self.k))
    }

    pub(crate) fn fields(self, w: u64) -> FloatingFields
        ensures { result ≡ floating_fields self.k w }
    {
        let sign = self.k + slash_bits(self.k);
        FloatingFields {
            negative: flag(w, sign),
            approximate: flag(w, sign - 1),
            position: self.slash_position(w),
            field: below(w, self.k - 1),
        }
    }

    pub(crate) fn is_undefined(self, w: u64) -> bool
        ensures { result ≡ slash_undefined self.k w }
    {
        let k = self.k;
        let e = self.slash_position(w);
        (k - 1 <= e) & (e <= power(slash_bits(k)) - 2)
    }

    #[inline(always)]
    pub(crate) fn value(self, w: u64) -> Value
        ensures { result ≡ (floating_number self.k w).value }
    {
        let k = self.k;
        let negative = flag(w, k + slash_bits(k));
        let e = self.slash_position(w);
        let f = below(w, k - 1);
        if e <= k - 2 {
            fraction(negative, e, f)
        } else {
            special(negative, f)
        }
    }

    pub(crate) fn is_approximate(self, w: u64) -> bool
        ensures { result ≡ (floating_number self.k w).approximate }
    {
        flag(w, self.k + slash_bits(self.k) - 1)
    }

    // e = 2^L - 1, where infinity and not-a-number stand.
    fn special_position(self) -> u64
        ensures { result ≡ 2 ^ slash_bits self.k - 1 }
    {
        power(slash_bits(self.k)) - 1
    }

    fn from_fields(self, s: u64, a: u64, e: u64, f: u64) -> u64
        requires { (s < 2) × (a < 2) × (e < 2 ^ slash_bits self.k) × (f < 2 ^ (self.k - 1)) }
        ensures { result ≡ floating_word self.k s a e f }
    {
        pack(s, a, 1, e, slash_bits(self.k), f, self.k - 1)
    }

    // The word of n/d, whose bit counts sum to at most k, or of 1/0.
    pub(crate) fn word(self, negative: bool, approximate: bool, n: u64, d: u64) -> u64
        requires { 1 ≤ d → bit_count n + bit_count d ≤ self.k }
        ensures { result ≡ floating_pair self.k (bit_of negative) (bit_of approximate) n d }
    {
        let s = bit_of(negative);
        let a = bit_of(approximate);
        if d == 0 {
            return self.from_fields(s, a, self.special_position(), 0);
        }
        let e = bit_count(d) - 1;
        let p = power(e);
        self.from_fields(s, a, e, n * p + (d - p))
    }

    pub(crate) fn not_a_number(self) -> u64
        ensures { result ≡ floating_nan self.k }
    {
        self.from_fields(0, 0, self.special_position(), 1)
    }
}
