// The columns of an inspected word: its digits, sign, fraction, mark and size.
ghost use Rattle.std.specs.Prelude.{◌≡◌, ◌*◌, ◌≤◌, ◌<◌, ◌^◌};
ghost use Rattle.convergents.specs.Pairs.{pair};
ghost use Rattle.text.specs.Columns.{thousandths, fraction_text};
ghost use Rattle.inspect.specs.Columns.{sign_text, mark_text, six_places, size_text};
ghost use Rattle.inspect.specs.Steps.{Room, Added, column, stored_columns};

use crate::store::{Text, put_digits, put_number, put_text};
use slash::Parts;

// (It and `put_mark` differ in two words alone, and so do their definitions: one for both would be handed
// the words.)
fn put_sign(out: &mut Text, negative: bool)
    requires { Room out.old.items (column (sign_text negative)) }
    ensures { Added out.old.items (column (sign_text negative)) out.new.items }
{
    if negative {
        put_text(out, b"\t-")
    } else {
        put_text(out, b"\t+")
    }
}

fn put_fraction(out: &mut Text, n: u64, d: u64)
    requires { Room out.old.items (column (fraction_text (pair n d))) }
    ensures { Added out.old.items (column (fraction_text (pair n d))) out.new.items }
{
    put_text(out, b"\t");
    put_number(out, n);
    put_text(out, b"/");
    put_number(out, d);
}

fn put_mark(out: &mut Text, approximate: bool)
    requires { Room out.old.items (column (mark_text approximate)) }
    ensures { Added out.old.items (column (mark_text approximate)) out.new.items }
{
    if approximate {
        put_text(out, b"\tapproximate")
    } else {
        put_text(out, b"\texact")
    }
}

// What a word stores, in so many digits: the word, its sign, its fraction, its mark.
pub(crate) fn put_stored(out: &mut Text, count: u64, w: u64, p: Parts, approximate: bool)
    requires { Room out.old.items (stored_columns count w p approximate) }
    ensures { Added out.old.items (stored_columns count w p approximate) out.new.items }
{
    put_digits(out, 16, count, w);
    put_sign(out, p.negative);
    put_fraction(out, p.numerator, p.denominator);
    put_mark(out, approximate);
}

// The nearest whole number to 1000000 n/d, and at a tie the even one: what a listing's thousandths are,
// of numbers that take up to 32 bits.
fn in_millionths(n: u64, d: u64) -> u64
    requires { (n < 2 ^ 32) × (d < 2 ^ 32) × (1 ≤ d) }
    ensures { result ≡ thousandths (1000 * n) d }
{
    let below = 1000000 * n / d;
    let twice = 2 * (1000000 * n % d);
    let odd = below % 2;
    // Past the half, where `twice` is above d, up; at the half, where it is d, up from an odd number alone.
    if d < twice + odd { below + 1 } else { below }
}

fn put_places(out: &mut Text, t: u64)
    requires { Room out.old.items (six_places t) }
    ensures { Added out.old.items (six_places t) out.new.items }
{
    put_number(out, t / 1000000);
    put_text(out, b".");
    put_digits(out, 10, 6, t);
}

// The size n/d, or a hyphen.
pub(crate) fn put_size(out: &mut Text, n: u64, d: u64)
    requires { (n < 2 ^ 32) × (d < 2 ^ 32) × Room out.old.items (column (size_text n d)) }
    ensures { Added out.old.items (column (size_text n d)) out.new.items }
{
    if d == 0 {
        put_text(out, b"\t-");
    } else {
        put_text(out, b"\t");
        put_places(out, in_millionths(n, d));
    }
}
