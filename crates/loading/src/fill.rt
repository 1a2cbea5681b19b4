// The lent lists filled from a text that was judged.
ghost use Rattle.std.specs.Prelude.{◌≡◌, ◌≤◌, length, take};
ghost use Rattle.text.specs.Scan.{length_before};
ghost use Rattle.text.specs.Stores.{put};
ghost use Rattle.loading.specs.Loads.{load};
ghost use Rattle.loading.specs.Steps.{Fits, words_in, numbers_in};

use crate::line::{digits, word_at};

// The fewest bytes that can stand between a word's digits and its line's end: two hyphens, and the
// tabs before them.
const SHORTEST: usize = 4;

// How many bytes are looked at at once for a line's end. Behind the fewest it stands among these, even
// where the columns are as long as 32767/32767 and 100.0.
const NEAR: usize = 16;

// How many of the first bytes stand before the line feed, all of them where it isn't there. Each byte
// gives its bit, the first the lowest, and a 1 stands above them; no branch goes by what the bytes
// are, so that the compiler takes all at once, and a line's length needn't be guessed.
fn near_end(bytes: &[u8]) -> usize
    requires { 16 ≤ length bytes.now }
    ensures { result ≡ length_before 10 (take 16 bytes.now) }
{
    let mut marks: u32 = 1;
    for i in (0..NEAR).rev() {
        marks = marks * 2 + (bytes[i] == b'\n') as u32;
    }
    marks.trailing_zeros() as usize
}

// Stores a listing's breath numbers and words. Its text was judged, and the lists are long enough.
pub(crate) fn fill_lists(text: &[u8], count: usize, numbers: &mut [u64], words: &mut [u64])
    requires { Fits (load text.now) count (length numbers.old) (length words.old) }
    ensures numbered { numbers.new ≡ put numbers.old 0 (numbers_in (load text.now)) }
    ensures worded { words.new ≡ put words.old 0 (words_in (load text.now)) }
{
    let mut from = 0;
    for i in 0..count {
        let word = from + digits((i + 1) as u32) + 1;
        let last = word + 8 + SHORTEST;
        numbers[i] = (i + 1) as u64;
        words[i] = word_at(text, word);
        from = last + near_end(&text[last..]) + 1;
    }
}
