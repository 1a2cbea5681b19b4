// What a line of input says.
ghost use Rattle.std.specs.Prelude.{◌≡◌, ◌<◌, ◌≤◌, [], ◌∷◌, SomeIff};
ghost use Rattle.inspect.specs.Says.{digit_value, word_says, kind_says, format_says, line_says};

use slash::Format;
use text::{is_same, length_before};

// A format, which may be unknown; a word; anything else; or that no line feed ended it in time.
#[derive(Clone, Copy)]
pub(crate) enum Said {
    Format(Format),
    Word(u64),
    Other,
    Unended,
}

// The most bytes of a line, its line feed not counted.
const LONGEST_LINE: usize = 32;

// The value of a digit below a base, of either case.
fn digit(b: u8, base: u32) -> Option<u32>
    requires { (2 ≤ base) × (base ≤ 16) }
    ensures { SomeIff result (digit_value b < base) (digit_value b) }
{
    char::from(b).to_digit(base)
}

fn read_word(line: &[u8]) -> Said
    ensures { result ≡ word_says line.now }
{
    if line.is_empty() {
        return Said::Other;
    }
    if 16 < line.len() {
        return Said::Other;
    }
    let mut value: u64 = 0;
    for &b in line {
        let Some(d) = digit(b, 16) else {
            return Said::Other;
        };
        value = value * 16 + d as u64;
    }
    Said::Word(value)
}

fn one_digit(kind: u64, x: u8) -> Said
    ensures { result ≡ kind_says kind (x ∷ []) }
{
    let Some(k) = digit(x, 10) else {
        return Said::Other;
    };
    Said::Format(Format { kind, k: k as u64 })
}

fn two_digits(kind: u64, x: u8, y: u8) -> Said
    ensures { result ≡ kind_says kind (x ∷ y ∷ []) }
{
    let Some(tens) = digit(x, 10) else {
        return Said::Other;
    };
    let Some(ones) = digit(y, 10) else {
        return Said::Other;
    };
    if tens == 0 {
        return Said::Other;
    }
    let k = (tens * 10 + ones) as u64;
    Said::Format(Format { kind, k })
}

// What stands behind a kind's name.
fn read_kind(kind: u64, k: &[u8]) -> Said
    ensures { result ≡ kind_says kind k.now }
{
    match k {
        [x] => one_digit(kind, *x),
        [x, y] => two_digits(kind, *x, *y),
        _ => Said::Other,
    }
}

fn read_format(name: &[u8], k: &[u8]) -> Said
    ensures { result ≡ format_says name.now k.now }
{
    if is_same(name, b"fixed") {
        return read_kind(Format::FIXED, k);
    }
    if is_same(name, b"floating") {
        return read_kind(Format::FLOATING, k);
    }
    Said::Other
}

// What a line says, its line feed not counted.
pub(crate) fn read_line(line: &[u8]) -> Said
    ensures { result ≡ line_says line.now }
{
    if LONGEST_LINE < line.len() {
        return Said::Unended;
    }
    let i = length_before(line, b' ');
    if i == line.len() {
        return read_word(line);
    }
    read_format(&line[..i], &line[i + 1..])
}
