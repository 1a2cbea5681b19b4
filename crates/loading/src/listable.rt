// Which words a listing has.
ghost use Rattle.std.specs.Prelude.{◌≡◌};
ghost use Rattle.loading.specs.Listable.{listable};
ghost use Rattle.loading.specs.Steps.{IsLowest};

// The sign, the highest bit of a ratio's word.
const SIGN: u64 = 0x8000_0000;

// Whether only 1 divides both, by Euclid's algorithm with the rest that is nearest to 0, above it or
// below, which takes fewer divisions.
fn is_lowest(n: u32, d: u32) -> bool
    ensures { IsLowest n d result }
{
    let mut u = d;
    let mut v = n;
    while 1 < v {
        let above = u % v;
        u = v;
        v = above.min(v - above);
    }
    (v == 1) | (u == 1)
}

// Void, or canonical with sign 0 and from 0 to 1. The parts are looked at as they stand in the word,
// the numerator above the mark and the denominator below it: where they are in lowest terms, the word
// is canonical, and zero is 0/1.
pub(crate) fn is_listable(w: u64) -> bool
    ensures { result ≡ listable w }
{
    if w == 0 {
        return true;
    }
    if SIGN <= w {
        return false;
    }
    let numerator = (w >> 16) as u32;
    let denominator = (w % 32768) as u32;
    if denominator < numerator {
        return false;
    }
    is_lowest(numerator, denominator)
}
