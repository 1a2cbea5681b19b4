// Rounding: the last convergent of a ratio that a format holds.
ghost use Rattle.std.specs.Prelude.{◌≡◌, true, ◌≤◌};
ghost use Rattle.convergents.specs.Pairs.{pair};
ghost use Rattle.convergents.specs.Best.{Best};
ghost use Rattle.slash.specs.Rounding.{rounded, round_ratio};
ghost use Rattle.slash.specs.Answers.{WhenDone};
ghost use Rattle.slash.specs.Formats.{known, holds};

use crate::answer::Stop;
use crate::bits::{bit_count, power};
use crate::format::Format;
use crate::known::Known;

// The pair, 1/0 for infinity, and whether its value differs from the ratio's.
#[derive(Clone, Copy)]
pub struct Rounded {
    pub numerator: u64,
    pub denominator: u64,
    pub approximate: bool,
}

// Whether the format holds r/s, where s is at least 1.
fn is_held(f: Known, r: u64, s: u64) -> bool
    ensures { result ≡ holds f.format r s }
{
    let k = f.format.k;
    if f.format.kind == Format::FIXED {
        // Neither has a bit above the k lowest; one test for both.
        let most = power(k) - 1;
        (r | s) <= most
    } else {
        bit_count(r) + bit_count(s) <= k
    }
}

// The convergents grow, and none is larger than n/d in its parts: no product here overflows, and
// the first that isn't held ends the search. It is exact just where the division ends.
pub(crate) fn last_held(f: Known, n: u64, d: u64) -> Rounded
    requires { 1 ≤ d }
    ensures rounded { result ≡ rounded f.format n d }
    ensures best { Best (holds f.format) n d (pair result.numerator result.denominator) }
{
    let mut p0: u64 = 0;
    let mut q0: u64 = 1;
    let mut p: u64 = 1;
    let mut q: u64 = 0;
    let mut u = n;
    let mut v = d;
    while v != 0 {
        let a = u / v;
        let rest = u % v;
        let pn = a * p + p0;
        let qn = a * q + q0;
        if !is_held(f, pn, qn) {
            return Rounded {
                numerator: p,
                denominator: q,
                approximate: true,
            };
        }
        p0 = p;
        q0 = q;
        p = pn;
        q = qn;
        u = v;
        v = rest;
    }
    Rounded {
        numerator: p,
        denominator: q,
        approximate: false,
    }
}

// n/d rounded into the format.
pub fn round(f: Format, n: u64, d: u64) -> Result<Rounded, Stop>
    ensures rounded { result ≡ round_ratio f n d }
    ensures best { WhenDone result (λ x. Best (holds f) n d (pair x.numerator x.denominator)) }
{
    f.check()?;
    if d == 0 {
        return Err(Stop::plain(Stop::DENOMINATOR));
    }
    Ok(last_held(Known { format: f }, n, d))
}
