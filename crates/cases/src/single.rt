// Requests on one word.
use crate::operations::every_word;
use crate::show::{Brief, Told, Word};
use slash::{Format, Stop};
use std::io;
use std::io::Write;

// u KIND K CODE WORD
pub(crate) fn operation<W: Write>(out: &mut W, f: Format, code: u64, w: u64) -> io::Result<()> {
    write!(out, "{}", Told(unary::unary(f, code, w).map(Word)))
}

// U KIND K CODE
pub(crate) fn operation_all<W: Write>(out: &mut W, f: Format, code: u64) -> io::Result<()> {
    every_word(out, f, " ", |w| Brief(unary::unary(f, code, w).map(Word)))
}

// WAY 1 twists a word, and any other untwists it.
fn by_way(f: Format, way: u64, w: u64) -> Result<u64, Stop> {
    match way {
        1 => twisting::twist(f, w),
        _ => twisting::untwist(f, w),
    }
}

// t KIND K WAY WORD
pub(crate) fn rearranged<W: Write>(out: &mut W, f: Format, way: u64, w: u64) -> io::Result<()> {
    write!(out, "{}", Told(by_way(f, way, w).map(Word)))
}

// T KIND K WAY
pub(crate) fn rearranged_all<W: Write>(out: &mut W, f: Format, way: u64) -> io::Result<()> {
    every_word(out, f, " ", |w| Brief(by_way(f, way, w).map(Word)))
}

// g KIND K WORD
pub(crate) fn gcd<W: Write>(out: &mut W, f: Format, w: u64) -> io::Result<()> {
    write!(out, "{}", Told(euclid::gcd(f, w)))
}

// G KIND K
pub(crate) fn gcd_all<W: Write>(out: &mut W, f: Format) -> io::Result<()> {
    every_word(out, f, " ", |w| Brief(euclid::gcd(f, w)))
}

// q KIND K LENGTH WORD: a list of at most 70 places is lent, each 4242, and shown after the call.
pub(crate) fn quotients<W: Write>(out: &mut W, f: Format, length: u64, w: u64) -> io::Result<()> {
    let mut list = [4242u32; 70];
    let lent = &mut list[..length.min(70) as usize];
    write!(out, "{}", Told(euclid::quotients(f, w, lent)))?;
    for quotient in lent.iter() {
        write!(out, " {quotient}")?;
    }
    Ok(())
}

// c KIND K WORD
pub(crate) fn quotient_count<W: Write>(out: &mut W, f: Format, w: u64) -> io::Result<()> {
    write!(out, "{}", Told(euclid::quotient_count(f, w)))
}

// C KIND K
pub(crate) fn quotient_count_all<W: Write>(out: &mut W, f: Format) -> io::Result<()> {
    every_word(out, f, " ", |w| Brief(euclid::quotient_count(f, w)))
}
