// Requests on breaths and sums at a rate. A tick mark is the low 32 bits of its number.
use crate::show::{Full, Word};
use breaths::{Breath, Rate, Ratio, Sums};
use std::io;
use std::io::Write;

fn mark(n: u64) -> u32 {
    (n % 4294967296) as u32
}

// A breath's durations, and whether it is void, or its word.
fn show_breath<W: Write>(out: &mut W, b: Breath, ratio: Ratio, void: bool) -> io::Result<()> {
    write!(out, "{} {} ", b.inspiration, b.whole)?;
    match ratio {
        Ratio::Void => write!(out, "void"),
        Ratio::Word(w) => write!(out, "{}", Word(w)),
    }?;
    // Both ways of asking tell the same.
    if (ratio.word() == 0) != void {
        write!(out, " otherwise")?;
    }
    Ok(())
}

// h RATE ONSET PEAK NEXT
pub(crate) fn breath<W: Write>(
    out: &mut W,
    ticks: u64,
    onset: u64,
    peak: u64,
    next: u64,
) -> io::Result<()> {
    let stored = breaths::stored_word(ticks, mark(onset), mark(peak), mark(next));
    match Rate::make(ticks) {
        Ok(rate) => {
            let b = Breath::between(mark(onset), mark(peak), mark(next));
            let ratio = b.ratio(rate);
            show_breath(out, b, ratio, b.is_void(rate))?;
            if !stored.is_ok_and(|w| w == ratio.word()) {
                write!(out, " stored otherwise")?;
            }
        }
        Err(stop) => {
            write!(out, "{}", Full(stop))?;
            if stored.is_ok() {
                write!(out, " stored")?;
            }
        }
    }
    Ok(())
}

// a RATE IN WHOLE ONSET PEAK NEXT
pub(crate) fn added<W: Write>(
    out: &mut W,
    ticks: u64,
    sums: Sums,
    onset: u64,
    peak: u64,
    next: u64,
) -> io::Result<()> {
    let b = Breath::between(mark(onset), mark(peak), mark(next));
    match Rate::make(ticks) {
        Ok(rate) => match sums.with_breath(b, rate) {
            Some(s) => write!(out, "{} {}", s.inspiration, s.whole),
            None => write!(out, "full"),
        },
        Err(stop) => write!(out, "{}", Full(stop)),
    }
}
