// Bytes and numbers stored as text into a lent list: each function answers the place behind what it
// stored. The list and the place stay two parameters: a struct that lends the list would have to be named
// twice in each clause, before and after, where now only the place changes.
ghost use Rattle.std.specs.Prelude.{◌≡◌, [], ◌∷◌, ◌+◌, ◌<◌};
ghost use Rattle.text.specs.Numbers.{decimal, hexadecimal, hex_digit};
ghost use Rattle.text.specs.Steps.{Room, two_digits};
ghost use Rattle.text.specs.Stores.{Stored};

pub(crate) fn put_byte(out: &mut [u8], at: usize, b: u8) -> usize
    requires { Room out.old at (b ∷ []) }
    ensures { Stored out.old at (b ∷ []) out.new result }
{
    out[at] = b;
    at + 1
}

pub(crate) fn put_text(out: &mut [u8], at: usize, text: &[u8]) -> usize
    requires { Room out.old at text.now }
    ensures { Stored out.old at text.now out.new result }
{
    let end = at + text.len();
    out[at..end].copy_from_slice(text);
    end
}

// n in decimal. No number of a listing has more than 5 digits.
pub(crate) fn put_decimal(out: &mut [u8], at: usize, n: u32) -> usize
    requires { (n < 100000) × Room out.old at (decimal n) }
    ensures { Stored out.old at (decimal n) out.new result }
{
    if n < 100 {
        put_short(out, at, n)
    } else if n < 10000 {
        let last = put_short(out, at, n / 100);
        put_two_digits(out, last, n % 100)
    } else {
        let middle = put_byte(out, at, digit(n / 10000));
        let last = put_two_digits(out, middle, n / 100 % 100);
        put_two_digits(out, last, n % 100)
    }
}

// n in decimal, however long it is.
pub(crate) fn put_number(out: &mut [u8], at: usize, n: u64) -> usize
    requires { Room out.old at (decimal n) }
    ensures { Stored out.old at (decimal n) out.new result }
{
    if n < 10 {
        put_byte(out, at, digit(n as u32))
    } else {
        let last = put_number(out, at, n / 10);
        put_byte(out, last, digit((n % 10) as u32))
    }
}

// n in decimal, where it has one digit or two.
fn put_short(out: &mut [u8], at: usize, n: u32) -> usize
    requires { (n < 100) × Room out.old at (decimal n) }
    ensures { Stored out.old at (decimal n) out.new result }
{
    if n < 10 {
        put_byte(out, at, digit(n))
    } else {
        put_two_digits(out, at, n)
    }
}

// Both digits of n, the first of which may be 0.
fn put_two_digits(out: &mut [u8], at: usize, n: u32) -> usize
    requires { (n < 100) × Room out.old at (two_digits n) }
    ensures { Stored out.old at (two_digits n) out.new result }
{
    let last = put_byte(out, at, digit(n / 10));
    put_byte(out, last, digit(n % 10))
}

pub(crate) fn digit(d: u32) -> u8
    requires { d < 10 }
    ensures { result ≡ 48 + d }
{
    b'0' + d as u8
}

// The last 8 hexadecimal digits of n.
pub(crate) fn put_hexadecimal(out: &mut [u8], at: usize, n: u64) -> usize
    requires { Room out.old at (hexadecimal 8 n) }
    ensures { Stored out.old at (hexadecimal 8 n) out.new result }
{
    let second = put_hex_byte(out, at, n >> 24);
    let third = put_hex_byte(out, second, n >> 16);
    let last = put_hex_byte(out, third, n >> 8);
    put_hex_byte(out, last, n)
}

// The last 2 hexadecimal digits of n: its lowest byte.
fn put_hex_byte(out: &mut [u8], at: usize, n: u64) -> usize
    requires { Room out.old at (hexadecimal 2 n) }
    ensures { Stored out.old at (hexadecimal 2 n) out.new result }
{
    let last = put_byte(out, at, hex_digit(n / 16 % 16));
    put_byte(out, last, hex_digit(n % 16))
}

// The digits from 0 to f.
const HEX_DIGITS: [u8; 16] = *b"0123456789abcdef";

fn hex_digit(d: u64) -> u8
    requires { d < 16 }
    ensures { result ≡ hex_digit d }
{
    HEX_DIGITS[d as usize]
}
