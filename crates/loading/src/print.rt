// The listing of words.
ghost use Rattle.std.specs.Prelude.{◌≡◌, ◌+◌, ◌≤◌, length};
ghost use Rattle.text.specs.Lines.{numbered};
ghost use Rattle.text.specs.Stores.{Stored, length_of, list_after};
ghost use Rattle.loading.specs.Listable.{AllListable};
ghost use Rattle.loading.specs.Prints.{ratios_of, print_check, print_outcome};

use crate::listable::is_listable;
use crate::stops::{SEQUENCE, WORD, stop_at};
use breaths::Ratio;
use slash::Stop;
use text::{Name, put_line};

// Whether these words are those of a listing, or the stop that the first line has that isn't.
fn check(words: &[u64], total: u64) -> Result<(), Stop>
    ensures { result ≡ print_check 1 words.now total }
{
    for (i, w) in words.iter().enumerate() {
        if text::MOST_BREATHS as usize <= i {
            return Err(stop_at(SEQUENCE, i as u64 + 1));
        }
        if !is_listable(*w) {
            return Err(stop_at(WORD, i as u64 + 1));
        }
    }
    if words.is_empty() && total != 0 {
        return Err(stop_at(SEQUENCE, 1));
    }
    if !is_listable(total) {
        return Err(stop_at(WORD, words.len() as u64 + 1));
    }
    Ok(())
}

// Stores the words' lines at the start of a list that has room for them and for a line more.
fn put_words(words: &[u64], out: &mut [u8]) -> usize
    requires { AllListable words.now × (length words.now ≤ 65536) × (2162719 ≤ length out.old) }
    ensures stored { Stored out.old 0 (numbered 1 (ratios_of words.now)) out.new result }
    ensures room { result + 33 ≤ 2162719 }
{
    let mut at = 0;
    for (i, w) in words.iter().enumerate() {
        at = put_line(out, at, Name::Number(i as u32 + 1), Ratio::of_word(*w));
    }
    at
}

// Stores the listing of words and their total at the start of the lent array, which holds the
// longest, and answers its length. It stops where no listing has such a line, and stores nothing
// then: 14 for a total that isn't void where there are no words, and for a word behind 65,536 of them;
// 15 for a word that isn't listable, at the line that it would have.
pub fn print_words(words: &[u64], total: u64, listing: &mut [u8; 2162719]) -> Result<u64, Stop>
    ensures answered { result ≡ length_of (print_outcome words.now total) }
    ensures stored { listing.new ≡ list_after (print_outcome words.now total) listing.old }
{
    check(words, total)?;
    let at = put_words(words, listing);
    Ok(put_line(listing, at, Name::All, Ratio::of_word(total)) as u64)
}
