// The bits of a number: powers of two, fields, how many bits a number takes.
ghost use Rattle.std.specs.Prelude.{◌≡◌, ◌+◌, ◌<◌, ◌^◌};
ghost use Rattle.slash.specs.Bits.{bit_count, bits, bit, bit_of, word_of_fields};

pub(crate) fn power(k: u64) -> u64
    requires { k < 64 }
    ensures { result ≡ 2 ^ k }
{
    1 << k
}

// How many bits n takes; 0 takes one. Counted of n with its lowest bit set, which takes as many, so
// that 0 is no case apart.
pub(crate) fn bit_count(n: u64) -> u64
    ensures { result ≡ bit_count n }
{
    64 - (u64::leading_zeros(n / 2 * 2 + 1) as u64)
}

// count bits of w, from bit from on.
pub(crate) fn field(w: u64, from: u64, count: u64) -> u64
    requires { (from < 64) × (count < 64) }
    ensures { result ≡ bits from count w }
{
    (w >> from) & (power(count) - 1)
}

// The bits of w below bit count.
pub(crate) fn below(w: u64, count: u64) -> u64
    requires { count < 64 }
    ensures { result ≡ bits 0 count w }
{
    w - ((w >> count) << count)
}

// Whether bit from of w is set.
pub(crate) fn flag(w: u64, from: u64) -> bool
    requires { from < 64 }
    ensures { result ≡ bit from w }
{
    field(w, from, 1) == 1
}

// 1 for a bit that is set.
pub(crate) fn bit_of(b: bool) -> u64
    ensures { result ≡ bit_of b }
{
    u64::from(b)
}

// A word of four fields, the highest first: a sign, and x, y, z of i, j, k bits.
pub(crate) fn pack(s: u64, x: u64, i: u64, y: u64, j: u64, z: u64, k: u64) -> u64
    requires { (i + j + k < 64) × (s < 2) × (x < 2 ^ i) × (y < 2 ^ j) × (z < 2 ^ k) }
    ensures { result ≡ word_of_fields s x i y j z k }
{
    let p = power(i);
    let q = power(j);
    let r = power(k);
    ((s * p + x) * q + y) * r + z
}
