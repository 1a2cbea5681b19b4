// Requests on two words of one format, and on conversion. A request with a capital letter is about
// every word of a small format.
ghost use Rattle.std.specs.Prelude.{◌≤◌};

use crate::show::{Brief, Told, Word};
use arithmetic::Order;
use slash::{Format, Stop};
use std::fmt::Display;
use std::io;
use std::io::Write;

// How many words a format of at most 16 bits has; 0 for any other.
fn count(f: Format) -> u64
    ensures { result ≤ 65536 }
{
    match f.width() {
        Ok(width) if width <= 16 => 1 << width,
        _ => 0,
    }
}

// An answer for each word of a format of at most 16 bits, parted by a text.
pub(crate) fn every_word<W: Write, T: Display + Drop, F: Fn(u64) -> T>(
    out: &mut W,
    f: Format,
    between: &str,
    answer: F,
) -> io::Result<()>
    requires { F.IsAlwaysCallable answer }
{
    let mut before = "";
    for w in 0..count(f) {
        write!(out, "{before}{}", answer(w))?;
        before = between;
    }
    Ok(())
}

// b KIND K CODE LEFT RIGHT
pub(crate) fn binary<W: Write>(
    out: &mut W,
    f: Format,
    code: u64,
    left: u64,
    right: u64,
) -> io::Result<()> {
    write!(
        out,
        "{}",
        Told(arithmetic::binary(f, code, left, right).map(Word))
    )
}

// B KIND K CODE LEFT
pub(crate) fn binary_all<W: Write>(out: &mut W, f: Format, code: u64, left: u64) -> io::Result<()> {
    every_word(
        out,
        f,
        " ",
        |right| Brief(arithmetic::binary(f, code, left, right).map(Word)),
    )
}

fn order_name(order: Order) -> &'static str {
    match order {
        Order::Below => "below",
        Order::Equal => "equal",
        Order::Above => "above",
        Order::Unordered => "unordered",
    }
}

// o KIND K LEFT RIGHT
pub(crate) fn compare<W: Write>(out: &mut W, f: Format, left: u64, right: u64) -> io::Result<()> {
    write!(
        out,
        "{}",
        Told(arithmetic::compare(f, left, right).map(order_name))
    )
}

fn order_mark(told: Result<Order, Stop>) -> &'static str {
    match told {
        Ok(Order::Below) => "<",
        Ok(Order::Equal) => "=",
        Ok(Order::Above) => ">",
        Ok(Order::Unordered) => "?",
        Err(_) => "!",
    }
}

// O KIND K LEFT
pub(crate) fn compare_all<W: Write>(out: &mut W, f: Format, left: u64) -> io::Result<()> {
    every_word(
        out,
        f,
        "",
        |right| order_mark(arithmetic::compare(f, left, right)),
    )
}

// v KIND K TO_KIND TO_K WORD
pub(crate) fn convert<W: Write>(out: &mut W, f: Format, to: Format, w: u64) -> io::Result<()> {
    write!(out, "{}", Told(conversion::convert(f, to, w).map(Word)))
}

// V KIND K TO_KIND TO_K
pub(crate) fn convert_all<W: Write>(out: &mut W, f: Format, to: Format) -> io::Result<()> {
    every_word(
        out,
        f,
        " ",
        |w| Brief(conversion::convert(f, to, w).map(Word)),
    )
}
