// Requests on records: how many bytes there are, at most 192, and how many places, at most 16, then the
// bytes, and the words at the places.
use crate::places::{at_most, show_words};
use crate::show::done;
use std::io;
use std::io::Write;

// i LENGTH OUT BYTES WORDS
pub(crate) fn imported<W: Write>(
    out: &mut W,
    lengths: [u64; 2],
    all: &[u64; 256],
) -> io::Result<()> {
    let [length, places] = lengths;
    let length = at_most(192, length);
    let end = 3 + length;
    let n = at_most(16, places);
    let mut bytes = [0; 192];
    for (byte, number) in bytes.iter_mut().zip(&all[3..end]) {
        *byte = (*number % 256) as u8;
    }
    let mut result = [0; 16];
    let lent = &mut result[..n];
    lent.copy_from_slice(&all[end..end + n]);
    let told = importing::import_records(&bytes[..length], lent);
    write!(out, "{}", done(told))?;
    show_words(out, lent)
}
