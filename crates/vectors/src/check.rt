// The words of vectors checked, lowest place first.
ghost use Rattle.std.specs.Prelude.{◌≡◌, length};
ghost use Rattle.slash.specs.Reading.{check_word};
ghost use Rattle.vectors.specs.Places.{operands, places};
ghost use Rattle.vectors.specs.Checks.{checks, check_operands, checked_words, checked_pairs};

use slash::{Format, Stop};

// The left word before the right one.
fn pair(f: Format, left: u64, right: u64) -> Result<(), Stop>
    ensures { result ≡ check_operands f (operands left right) }
{
    slash::check(f, left)?;
    slash::check(f, right)?;
    Ok(())
}

// The same stop, with its place.
fn at_place(s: Stop, i: usize) -> Stop
    ensures { result ≡ record { number = s.number; place = i } }
{
    Stop {
        number: s.number,
        place: i as u64,
    }
}

// The first stop of a vector's words.
fn words(f: Format, operand: &[u64]) -> Result<(), Stop>
    ensures { result ≡ checks (check_word f) 0 operand.now }
{
    for (i, w) in operand.iter().enumerate() {
        if let Err(s) = slash::check(f, *w) {
            return Err(at_place(s, i));
        }
    }
    Ok(())
}

// The first stop of two vectors' words.
fn pairs(f: Format, left: &[u64], right: &[u64]) -> Result<(), Stop>
    requires { length left.now ≡ length right.now }
    ensures { result ≡ checks (check_operands f) 0 (places left.now right.now) }
{
    for (i, l) in left.iter().enumerate() {
        if let Err(s) = pair(f, *l, right[i]) {
            return Err(at_place(s, i));
        }
    }
    Ok(())
}

// Whether a vector's words are good: the stop of the lowest place that has one, after that of the
// format.
pub fn check_words(f: Format, operand: &[u64]) -> Result<(), Stop>
    ensures { result ≡ checked_words f operand.now }
{
    f.check()?;
    words(f, operand)
}

// The same of two vectors, after stop 3 for unequal lengths; at a place the left word is checked
// first.
pub fn check_pairs(f: Format, left: &[u64], right: &[u64]) -> Result<(), Stop>
    ensures { result ≡ checked_pairs f left.now right.now }
{
    f.check()?;
    if left.len() != right.len() {
        return Err(Stop::plain(Stop::LENGTH));
    }
    pairs(f, left, right)
}
