// The word of a ratio above 0 and up to 1, by divisions in 32 bits.
ghost use Rattle.std.specs.Prelude.{◌≡◌, ◌+◌, ◌*◌, ◌/◌, ◌%◌, ◌<◌, ◌≤◌};
ghost use Rattle.breaths.specs.Ratios.{ratio_word};

// The largest part of a ratio's word.
const LARGEST: u64 = 32767;

// The places of a word's numerator and of its mark.
const NUMERATOR: u64 = 65536;

const MARK: u64 = 32768;

// A pair p/q in one number, q 65536 times and p. As p isn't above q, the word holds it just where that is
// below this.
const END: u64 = 2147483648;

// The word of such a number, without a mark: p stands where q stood, and q where p did.
fn exchanged(pair: u64) -> u64
    requires { pair < 2147483648 }
    ensures { result ≡ pair % 65536 * 65536 + pair / 65536 }
{
    pair % NUMERATOR * NUMERATOR + pair / NUMERATOR
}

// n/d rounded, as `slash::round_word` does it, in fewer and shorter divisions, with both parts of a
// convergent in one number. As n isn't above d, 0/1 and 1 over the first quotient are the convergents
// behind 1/0, and what remains then is below n; no numerator is above its denominator.
pub(crate) fn proportion_word(n: u32, d: u64) -> u64
    requires { (1 ≤ n) × (n ≤ d) }
    ensures { result ≡ ratio_word n d }
{
    let first = d / (n as u64);
    if LARGEST < first {
        return MARK + 1;
    }
    let mut former: u64 = NUMERATOR;
    let mut last = first * NUMERATOR + 1;
    let mut u = n;
    let mut v = (d % (n as u64)) as u32;
    while v != 0 {
        let a = (u / v) as u64;
        let rest = u % v;
        let next = a * last + former;
        if END <= next {
            return exchanged(last) + MARK;
        }
        former = last;
        last = next;
        u = v;
        v = rest;
    }
    exchanged(last)
}
