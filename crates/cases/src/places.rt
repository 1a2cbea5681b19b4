// Requests on vectors: lengths, at most 16 each, then the words of each vector, the result's last.
ghost use Rattle.std.specs.Prelude.{◌≤◌, ◌<◌, ◌^◌};

use crate::show::{Word, done};
use slash::{Format, Stop};
use std::io;
use std::io::Write;

// What the check of the operands and the operation told, and the words that it left in the list.
fn show_stored<W: Write>(
    out: &mut W,
    checked: Result<(), Stop>,
    stored: Result<(), Stop>,
    words: &[u64],
) -> io::Result<()> {
    write!(out, "{} {}", done(checked), done(stored))?;
    show_words(out, words)
}

pub(crate) fn show_words<W: Write>(out: &mut W, words: &[u64]) -> io::Result<()> {
    for w in words {
        write!(out, " {}", Word(*w))?;
    }
    Ok(())
}

// A length, cut to the most.
pub(crate) fn at_most(most: usize, length: u64) -> usize
    ensures { result ≤ most }
{
    (most as u64).min(length) as usize
}

// x KIND K CODE LEFT RIGHT OUT WORDS
pub(crate) fn binary_each<W: Write>(
    out: &mut W,
    f: Format,
    code: u64,
    lengths: [u64; 3],
    all: &[u64; 256],
) -> io::Result<()> {
    let [left, right, places] = lengths;
    let middle = 7 + at_most(16, left);
    let end = middle + at_most(16, right);
    let n = at_most(16, places);
    let mut result = [0; 16];
    let lent = &mut result[..n];
    lent.copy_from_slice(&all[end..end + n]);
    let lefts = &all[7..middle];
    let rights = &all[middle..end];
    let checked = vectors::check_pairs(f, lefts, rights);
    let stored = arithmetic::binary_each(f, code, lefts, rights, lent);
    show_stored(out, checked, stored, lent)
}

// What an operation on one vector comes to, which stands among the numbers from a place on, with the
// words of the list that is lent behind it.
fn each<W: Write, F: FnOnce(&[u64], &mut [u64]) -> Result<(), Stop>>(
    out: &mut W,
    f: Format,
    from: usize,
    lengths: [u64; 2],
    all: &[u64; 256],
    operation: F,
) -> io::Result<()>
    requires from { from ≤ 7 }
    requires callable { F.IsAlwaysCallable operation }
{
    let [operand, places] = lengths;
    let end = from + at_most(16, operand);
    let n = at_most(16, places);
    let mut result = [0; 16];
    let lent = &mut result[..n];
    lent.copy_from_slice(&all[end..end + n]);
    let operands = &all[from..end];
    let checked = vectors::check_words(f, operands);
    let stored = operation(operands, lent);
    show_stored(out, checked, stored, lent)
}

// y KIND K CODE OPERAND OUT WORDS
pub(crate) fn unary_each<W: Write>(
    out: &mut W,
    f: Format,
    code: u64,
    lengths: [u64; 2],
    all: &[u64; 256],
) -> io::Result<()> {
    each(
        out,
        f,
        6,
        lengths,
        all,
        |from, to| unary::unary_each(f, code, from, to),
    )
}

// z KIND K TO_KIND TO_K OPERAND OUT WORDS
pub(crate) fn convert_each<W: Write>(
    out: &mut W,
    f: Format,
    to: Format,
    lengths: [u64; 2],
    all: &[u64; 256],
) -> io::Result<()> {
    each(
        out,
        f,
        7,
        lengths,
        all,
        |from, lent| conversion::convert_each(f, to, from, lent),
    )
}

// e KIND K WAY OPERAND OUT WORDS: WAY 1 twists words, and any other untwists them.
pub(crate) fn rearranged_each<W: Write>(
    out: &mut W,
    f: Format,
    way: u64,
    lengths: [u64; 2],
    all: &[u64; 256],
) -> io::Result<()> {
    each(out, f, 6, lengths, all, |from, to| match way {
        1 => twisting::twist_each(f, from, to),
        _ => twisting::untwist_each(f, from, to),
    })
}
