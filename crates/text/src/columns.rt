// The columns of a printed line: word, fraction, percentage.
ghost use Rattle.std.specs.Prelude.{◌≡◌, ◌≤◌, ◌<◌, ◌^◌};
ghost use Rattle.convergents.specs.Pairs.{pair};
ghost use Rattle.breaths.specs.Ratios.{fraction_of};
ghost use Rattle.text.specs.Columns.{thousandths, percentage, fraction_text, fraction_and_percentage, columns};
ghost use Rattle.text.specs.Lines.{is_printable};
ghost use Rattle.text.specs.Steps.{Room};
ghost use Rattle.text.specs.Stores.{Stored};
ghost use Rattle.breaths.specs.Steps.{Proportion, PrintableRatio};

use crate::number::{digit, put_byte, put_decimal, put_hexadecimal, put_text};
use breaths::Ratio;

// Two parts, as a word has them.
#[derive(Clone, Copy)]
pub(crate) struct Fraction {
    pub(crate) numerator: u32,
    pub(crate) denominator: u32,
}

// The fraction of a word of sign 0, which is good: no part has more than 15 bits.
fn word_fraction(w: u64) -> Fraction
    requires { w < 2 ^ 31 }
    ensures { pair result.numerator result.denominator ≡ fraction_of w }
{
    let Ok(x) = slash::check(Ratio::format(), w) else {
        return Fraction {
            numerator: 0,
            denominator: 0,
        };
    };
    let p = slash::parts_of(x.value());
    Fraction {
        numerator: p.numerator as u32,
        denominator: p.denominator as u32,
    }
}

// The sign, the highest bit of a ratio's word.
const SIGN: u64 = 2147483648;

// Whether a word stands for a ratio from 0 to 1.
fn is_printable_word(w: u64) -> bool
    ensures { result ≡ is_printable (Ratio.Word w) }
{
    if SIGN <= w {
        return false;
    }
    let x = word_fraction(w);
    (1 <= x.denominator) & (x.numerator <= x.denominator)
}

// Whether a line shows it.
pub(crate) fn is_printable(x: Ratio) -> bool
    ensures { result ≡ is_printable x }
{
    match x {
        Ratio::Void => true,
        Ratio::Word(w) => is_printable_word(w),
    }
}

fn put_fraction(out: &mut [u8], at: usize, n: u32, d: u32) -> usize
    requires { (n < 100000) × (d < 100000) × Room out.old at (fraction_text (pair n d)) }
    ensures { Stored out.old at (fraction_text (pair n d)) out.new result }
{
    let slash = put_decimal(out, at, n);
    let denominator = put_byte(out, slash, b'/');
    put_decimal(out, denominator, d)
}

// The nearest whole number to 1000 n/d, and at a tie the even one.
fn in_thousandths(n: u32, d: u32) -> u32
    requires { (n < 100000) × (d < 100000) × (1 ≤ d) }
    ensures { result ≡ thousandths n d }
{
    let below = 1000 * n / d;
    let twice = 2 * (1000 * n % d);
    let odd = below % 2;
    // Past the half, where `twice` is above d, up; at the half, where it is d, up from an odd number alone.
    if d < twice + odd { below + 1 } else { below }
}

fn put_percentage(out: &mut [u8], at: usize, t: u32) -> usize
    requires { (t < 1001) × Room out.old at (percentage t) }
    ensures { Stored out.old at (percentage t) out.new result }
{
    let point = put_decimal(out, at, t / 10);
    let tenths = put_byte(out, point, b'.');
    put_byte(out, tenths, digit(t % 10))
}

// What stands behind the word w of a ratio: its fraction, and the percentage of that fraction.
fn put_shares(out: &mut [u8], at: usize, w: u64) -> usize
    requires { Proportion w × Room out.old at (fraction_and_percentage (Ratio.Word w)) }
    ensures { Stored out.old at (fraction_and_percentage (Ratio.Word w)) out.new result }
{
    let x = word_fraction(w);
    let tab = put_fraction(out, at, x.numerator, x.denominator);
    let percent = put_byte(out, tab, b'\t');
    put_percentage(out, percent, in_thousandths(x.numerator, x.denominator))
}

pub(crate) fn put_columns(out: &mut [u8], at: usize, x: Ratio) -> usize
    requires { PrintableRatio x × Room out.old at (columns x) }
    ensures { Stored out.old at (columns x) out.new result }
{
    let tab = put_hexadecimal(out, at, x.word());
    let behind = put_byte(out, tab, b'\t');
    match x {
        Ratio::Void => put_text(out, behind, b"-\t-"),
        Ratio::Word(w) => put_shares(out, behind, w),
    }
}
