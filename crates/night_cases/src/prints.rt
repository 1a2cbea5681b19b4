// Prints the listing of words that are given as bytes, eight a word, the highest first.
use crate::lent::Lent;
use crate::{lent, show};
use std::io;
use std::io::Write;

// The listing of words, of which the last is the total's, or the stop. Where there are more words
// than the list has places, the rest is left out: the list has more than 65,536, so the answer is the
// stop at line 65,537 or one before it, and neither a later word nor the total is looked at.
pub(crate) fn run<W: Write>(out: &mut W, bytes: &[u8], lent: &mut Lent) -> io::Result<()> {
    let Some((words, total)) = bytes.split_last_chunk() else {
        return Ok(());
    };
    let (words, _) = words.as_chunks();
    for (place, word) in lent.words.iter_mut().zip(words) {
        *place = u64::from_be_bytes(*word);
    }
    let count = words.len().min(lent::PLACES);
    match loading::print_words(
        &lent.words[..count],
        u64::from_be_bytes(*total),
        lent.listing,
    ) {
        Ok(length) => show::listing(out, lent::stored(&lent.listing[..], length)),
        Err(stop) => show::stop(out, stop),
    }
}
