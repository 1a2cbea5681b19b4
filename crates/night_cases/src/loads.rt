// Loads texts, and prints what was loaded again.
ghost use Rattle.std.specs.Prelude.{◌≤◌};

use crate::lent::Lent;
use crate::{lent, show};
use loading::Counted;
use slash::Stop;
use std::io;
use std::io::Write;

// What the first place of each lent list holds before a loading; each later place holds 1 more, so that
// each tells whether the loading stored in it.
const LENT_NUMBER: u64 = 1000000;

const LENT_WORD: u64 = 2000000;

// A list with more places is shown by its length and its checksum.
const MOST_SHOWN: usize = 12;

// Whether the listing of what was loaded from a text, the first words of a list, is that text.
fn is_printed(text: &[u8], c: Counted, lent: &mut Lent) -> bool {
    let Some(words) = lent.words.get(..c.breaths as usize) else {
        return false;
    };
    match loading::print_words(words, c.total, lent.listing) {
        Ok(length) => lent::stored(&lent.listing[..], length) == text,
        Err(_) => false,
    }
}

// Whether a listing is loaded, and its words are printed as it stands.
pub(crate) fn is_loaded(text: &[u8], lent: &mut Lent) -> bool {
    let (numbers, words) = (&mut *lent.numbers, &mut *lent.words);
    match loading::load_text(text, numbers, words) {
        Ok(c) => is_printed(text, c, lent),
        Err(_) => false,
    }
}

// A list as a line.
fn show_list<W: Write>(out: &mut W, list: &[u64]) -> io::Result<()> {
    if list.len() <= MOST_SHOWN {
        let mut before = "";
        for n in list {
            write!(out, "{before}{n}")?;
            before = " ";
        }
    } else {
        let checksum = list.iter().fold(0, |h, n| show::summed(h, *n));
        write!(out, "{} {checksum}", list.len())?;
    }
    writeln!(out)
}

// Each place gets 1 more than the one before it.
fn fill(list: &mut [u64], first: u64) {
    for (place, n) in list.iter_mut().zip(first..) {
        *place = n;
    }
}

// A text loaded into the first places of two lists, so many of each.
fn load(
    text: &[u8],
    numbers: usize,
    number_list: &mut [u64; lent::PLACES],
    words: usize,
    word_list: &mut [u64; lent::PLACES],
) -> Result<Counted, Stop>
    requires { (numbers ≤ 65540) × (words ≤ 65540) }
{
    let number_list = &mut number_list[..numbers];
    let word_list = &mut word_list[..words];
    fill(number_list, LENT_NUMBER);
    fill(word_list, LENT_WORD);
    loading::load_text(text, number_list, word_list)
}

// A text loaded into lists of so many places: what came of it, and the lists.
pub(crate) fn run<W: Write>(
    out: &mut W,
    text: &[u8],
    numbers: usize,
    words: usize,
    lent: &mut Lent,
) -> io::Result<()> {
    if lent::PLACES < numbers || lent::PLACES < words {
        return Ok(());
    }
    let (number_list, word_list) = (&mut *lent.numbers, &mut *lent.words);
    match load(text, numbers, number_list, words, word_list) {
        Ok(c) => {
            writeln!(out, "done {} {}", c.breaths, c.total)?;
            if !is_printed(text, c, lent) {
                writeln!(out, "printed otherwise")?;
            }
        }
        Err(stop) => show::stop(out, stop)?,
    }
    show_list(out, &lent.numbers[..numbers])?;
    show_list(out, &lent.words[..words])
}
