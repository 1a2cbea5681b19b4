// A listing read back.
ghost use Rattle.std.specs.Prelude.{◌≡◌, ◌≤◌, IfSome, length};
ghost use Rattle.loading.specs.Loads.{load, Exactly};
ghost use Rattle.loading.specs.Fills.{count_of, load_into, numbers_after, words_after};
ghost use Rattle.loading.specs.Steps.{Breath, LineIs, TurnIs, EndIs};

use crate::fill::fill_lists;
use crate::first::Line;
use crate::line::{Entry, digits, guess_at, line_there};
use crate::listable::is_listable;
use crate::stops::{SEQUENCE, SHAPE, stop_at};
use breaths::Ratio;
use shapes::shape_of;
use slash::Stop;
use text::{Name, is_same, length_before, put_line};

// The breath count, and the total's word.
#[derive(Clone, Copy)]
pub struct Counted {
    pub breaths: u64,
    pub total: u64,
}

// What comes next in a text: a breath's line of so many bytes, or the end with the total's word.
#[derive(Clone, Copy)]
pub(crate) enum Turn {
    More(usize),
    Closed(u64),
}

// The line that a text begins with, line n; none where there is no more text. Stop 13: no line feed
// ends it.
fn first_line(text: &[u8], n: u32) -> Result<Option<Line<'_>>, Stop>
    requires { 1 ≤ n }
    ensures { LineIs n text.now result }
{
    let end = length_before(text, b'\n');
    if end < text.len() {
        Ok(Some(Line {
            text,
            number: n,
            end,
        }))
    } else if end == 0 {
        Ok(None)
    } else {
        Err(stop_at(SHAPE, n as u64))
    }
}

// What comes behind `all`, from line n on: nothing, or there is a stop.
fn behind_all(text: &[u8], n: u32) -> Result<(), Stop>
    requires { 1 ≤ n }
    ensures { EndIs n text.now result }
{
    let Some(line) = first_line(text, n)? else {
        return Ok(());
    };
    match shape_of(&line.text[..line.end]) {
        Some(_) => Err(stop_at(SEQUENCE, n as u64)),
        None => Err(stop_at(SHAPE, n as u64)),
    }
}

// What comes at line n, judged whole.
fn judged_turn(text: &[u8], n: u32) -> Result<Turn, Stop>
    requires { (1 ≤ n) × (n ≤ 65537) }
    ensures { TurnIs n text.now result }
{
    let Some(line) = first_line(text, n)? else {
        return Err(stop_at(SEQUENCE, n as u64));
    };
    match line.judge()? {
        Entry::Breath(_) => Ok(Turn::More(line.end + 1)),
        Entry::Total(w) => {
            behind_all(&line.text[line.end + 1..], line.number + 1)?;
            Ok(Turn::Closed(w))
        }
    }
}

// How many bytes breath n's line has, where a text begins with it: it is looked for with the word that
// stands where it has to. Where the longest line has room, it is stored over the text's first bytes, which
// are as they were where it stands there, and what takes longest is asked last.
fn breath_line(text: &[u8], n: u32) -> Option<usize>
    requires { (1 ≤ n) × (n ≤ 65536) }
    ensures { IfSome result (λ used. Breath n text.now used) }
{
    let from = digits(n) + 1;
    if let Some(window) = text.first_chunk() {
        let w = guess_at(window, from);
        let mut bytes: [u8; 33] = *window;
        let used = put_line(&mut bytes, 0, Name::Number(n), Ratio::of_word(w));
        if is_same(window, &bytes) && is_listable(w) {
            return Some(used);
        }
        return None;
    }
    if text.len() < from + 8 {
        return None;
    }
    line_there(text, Name::Number(n), guess_at(text, from))
}

// What comes at line n. A breath's line as it is printed is known at once; any other is judged whole,
// which no listing asks for more than once.
fn next_turn(text: &[u8], n: u32) -> Result<Turn, Stop>
    requires { (1 ≤ n) × (n ≤ 65537) }
    ensures { TurnIs n text.now result }
{
    if n <= text::MOST_BREATHS {
        if let Some(used) = breath_line(text, n) {
            return Ok(Turn::More(used));
        }
    }
    judged_turn(text, n)
}

// The breaths of a text, and its total, or its stop.
fn check(text: &[u8]) -> Result<Counted, Stop>
    ensures { result ≡ count_of (load text.now) }
{
    let mut from = 0;
    let mut n: u32 = 1;
    loop {
        match next_turn(&text[from..], n)? {
            Turn::More(used) => {
                n += 1;
                from += used;
            }
            Turn::Closed(w) => {
                return Ok(Counted {
                    breaths: (n - 1) as u64,
                    total: w,
                });
            }
        }
    }
}

// Reads a printed listing back: stores its breaths' numbers and words at the start of the lent
// lists, and answers their count and the total's word. The text is judged to its end before anything
// is stored, so that a stop changes no place of either list.
pub fn load_text(text: &[u8], numbers: &mut [u64], words: &mut [u64]) -> Result<Counted, Stop>
    ensures answered { result ≡ count_of (load_into text.now (length numbers.old) (length words.old)) }
    ensures numbered { numbers.new ≡ numbers_after (load_into text.now (length numbers.old) (length words.old)) numbers.old }
    ensures worded { words.new ≡ words_after (load_into text.now (length numbers.old) (length words.old)) words.old }
    ensures exactly { Exactly text.now }
{
    let c = check(text)?;
    if (numbers.len().min(words.len()) as u64) < c.breaths {
        return Err(Stop::plain(Stop::LIST));
    }
    fill_lists(text, c.breaths as usize, numbers, words);
    Ok(c)
}
