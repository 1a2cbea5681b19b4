// A line of a listing: what it gives.
ghost use Rattle.std.specs.Prelude.{◌≡◌, ◌+◌, ◌≤◌, true, length, take, drop};
ghost use Rattle.text.specs.Numbers.{decimal};
ghost use Rattle.text.specs.Scan.{same};
ghost use Rattle.text.specs.Lines.{is_name};
ghost use Rattle.shapes.specs.Shapes.{shape_of};
ghost use Rattle.loading.specs.Lines.{total_at, in_sequence, entry_of};
ghost use Rattle.loading.specs.Steps.{line_there, digit_value, word_from};

use crate::first::Line;
use crate::listable::is_listable;
use crate::stops::{SEQUENCE, SHAPE, WORD, stop_at};
use breaths::Ratio;
use shapes::{Said, shape_of};
use slash::Stop;
use text::{Name, is_same, put_line};

// What a line gives: a breath's word, or the total's.
#[derive(Clone, Copy)]
pub(crate) enum Entry {
    Breath(u64),
    Total(u64),
}

// How many digits a breath's number has. (By `ilog10` loading took 1 to 2 in a hundred longer.)
pub(crate) fn digits(n: u32) -> usize
    requires { n ≤ 65536 }
    ensures { result ≡ length (decimal n) }
{
    if n < 10 {
        1
    } else if n < 100 {
        2
    } else if n < 1000 {
        3
    } else if n < 10000 {
        4
    } else {
        5
    }
}

// Whether a field is n in decimal. It is compared from its last digit on, so that no number is read
// from it, however long it is.
fn is_number(field: &[u8], n: u32) -> bool
    ensures { result ≡ same field.now (decimal n) }
{
    let mut front = field;
    let mut m = n;
    while 10 <= m {
        let Some((last, before)) = front.split_last() else {
            return false;
        };
        if *last != b'0' + (m % 10) as u8 {
            return false;
        }
        front = before;
        m = m / 10;
    }
    front.len() == 1 && front[0] == b'0' + m as u8
}

// How many bytes the line has that is printed for a name and a word, where the word is listable and
// the text begins with that line.
pub(crate) fn line_there(text: &[u8], name: Name, w: u64) -> Option<usize>
    requires { is_name name ≡ true }
    ensures { result ≡ line_there text.now name w }
{
    if !is_listable(w) {
        return None;
    }
    let mut line = [0u8; 33];
    let k = put_line(&mut line, 0, name, Ratio::of_word(w));
    if text.len() < k {
        return None;
    }
    if !is_same(&text[..k], &line[..k]) {
        return None;
    }
    Some(k)
}

// The value of a hexadecimal digit. Bit 6 tells a letter, whose lowest bits count from 1, for ten.
fn digit_value(b: u8) -> u64
    ensures value { result ≡ digit_value b }
    ensures small { result ≤ 42 }
{
    (b % 16) as u64 + (b / 64) as u64 * 9
}

// What eight bytes from a place on would say, were they hexadecimal digits.
pub(crate) fn word_at(text: &[u8], at: usize) -> u64
    requires { at + 8 ≤ length text.now }
    ensures { result ≡ word_from 0 (take 8 (drop at text.now)) }
{
    let mut value: u64 = 0;
    for b in &text[at..at + 8] {
        value = value * 16 + digit_value(*b);
    }
    value
}

// Of each byte the lowest bit, and the lower half; of each two bytes the lower; of each four the lower
// two; of eight the lower four.
const LOWEST_BITS: u64 = 0x0101_0101_0101_0101;

const LOWER_HALVES: u64 = 0x0f0f_0f0f_0f0f_0f0f;

const LOWER_BYTES: u64 = 0x00ff_00ff_00ff_00ff;

const LOWER_PAIRS: u64 = 0x0000_ffff_0000_ffff;

const LOWER_FOUR: u64 = 0xffff_ffff;

// The same, all eight digits at once. Nothing is promised of it, since its line is looked for then.
pub(crate) fn guess_at(text: &[u8], at: usize) -> u64
    requires { at + 8 ≤ length text.now }
{
    let digits = u64::from_be_bytes([
        text[at],
        text[at + 1],
        text[at + 2],
        text[at + 3],
        text[at + 4],
        text[at + 5],
        text[at + 6],
        text[at + 7],
    ]);
    let letters = digits >> 6 & LOWEST_BITS;
    let tens = (letters << 3).wrapping_add(letters);
    let halves = (digits & LOWER_HALVES).wrapping_add(tens);
    let bytes = (halves | halves >> 4) & LOWER_BYTES;
    let pairs = (bytes | bytes >> 8) & LOWER_PAIRS;
    (pairs | pairs >> 16) & LOWER_FOUR
}

impl Line<'_> {
    // A stop at its number.
    fn stop(self, number: u64) -> Stop
        ensures { result ≡ record { number = number; place = self.entry.number } }
    {
        stop_at(number, self.number as u64)
    }

    // What it gives, which is named `all` and says word w: the total, or 15. As the first line: the void
    // total of a listing of no breaths, or 14.
    fn total(self, w: u64) -> Result<Entry, Stop>
        ensures { result ≡ total_at self.entry.number (take self.entry.end self.entry.text.now) w }
    {
        if self.number == 1 {
            return match line_there(self.text, Name::All, 0) {
                Some(_) => Ok(Entry::Total(0)),
                None => Err(self.stop(SEQUENCE)),
            };
        }
        match line_there(self.text, Name::All, w) {
            Some(_) => Ok(Entry::Total(w)),
            None => Err(self.stop(WORD)),
        }
    }

    // What it gives, which has the shape and says x.
    fn in_sequence(self, x: Said) -> Result<Entry, Stop>
        requires { x.name ≤ self.end }
        ensures { result ≡ in_sequence self.entry.number (take self.entry.end self.entry.text.now) (take x.name (take self.entry.end self.entry.text.now)) x.word }
    {
        if is_same(&self.text[..x.name], b"all") {
            return self.total(x.word);
        }
        if text::MOST_BREATHS < self.number {
            return Err(self.stop(SEQUENCE));
        }
        if !is_number(&self.text[..x.name], self.number) {
            return Err(self.stop(SEQUENCE));
        }
        match line_there(self.text, Name::Number(self.number), x.word) {
            Some(_) => Ok(Entry::Breath(x.word)),
            None => Err(self.stop(WORD)),
        }
    }

    // What it gives, before `all`.
    pub(crate) fn judge(self) -> Result<Entry, Stop>
        ensures { result ≡ entry_of self.entry.number (shape_of (take self.entry.end self.entry.text.now)) (take self.entry.end self.entry.text.now) }
    {
        match shape_of(&self.text[..self.end]) {
            Some(x) => self.in_sequence(x),
            None => Err(self.stop(SHAPE)),
        }
    }
}
