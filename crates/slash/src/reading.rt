// Reading a word: whether it is refused, and what it says.
ghost use Rattle.std.specs.Prelude.{◌≡◌, ◌<◌};
ghost use Rattle.slash.specs.Reading.{is_above, checked_word, fields_in, number_in, read_word};

use crate::answer::Stop;
use crate::fields::{Fields, FixedFields};
use crate::format::Format;
use crate::number::{Number, Value};
use crate::{fixed, floating};

// A word that `check` found good, with its format. The fields are private, so that only `check` makes
// one. Each method covers a k out of bounds, which never comes: a ghost field would say so, but the
// definition `checked_word` makes such words too, and would have to prove it where a buyer reads.
#[derive(Clone, Copy)]
pub struct GoodWord {
    format: Format,
    word: u64,
}

// Whether w has a bit above the width, which may be all 64 bits.
fn is_above(w: u64, width: u64) -> bool
    requires { (0 < width) × (width < 65) }
    ensures { result ≡ is_above width w }
{
    2 <= w >> (width - 1)
}

// A word of a format, if it is good, or its stop. Checking, the value and the mark are functions of their own:
// together, as `read`, they are too large for the compiler to put in place of a call.
pub fn check(f: Format, w: u64) -> Result<GoodWord, Stop>
    ensures { result ≡ checked_word f w }
{
    f.check()?;
    if is_above(w, f.word_bits()) {
        return Err(Stop::plain(Stop::WIDTH));
    }
    let good = GoodWord { format: f, word: w };
    if f.kind == Format::FIXED {
        return Ok(good);
    }
    if (floating::Layout { k: f.k }).is_undefined(w) {
        return Err(Stop::plain(Stop::SLASH));
    }
    Ok(good)
}

impl GoodWord {
    // The value that the word says.
    #[inline(always)]
    pub fn value(self) -> Value
        ensures { result ≡ (number_in self.format self.word).value }
    {
        let f = self.format;
        let w = self.word;
        if !f.k_fits() {
            return Value::NotANumber;
        }
        if f.kind == Format::FIXED {
            fixed::Layout { k: f.k }.value(w)
        } else {
            floating::Layout { k: f.k }.value(w)
        }
    }

    // Whether the word is marked as approximate.
    pub fn is_approximate(self) -> bool
        ensures { result ≡ (number_in self.format self.word).approximate }
    {
        let f = self.format;
        let w = self.word;
        if !f.k_fits() {
            return false;
        }
        if f.kind == Format::FIXED {
            fixed::Layout { k: f.k }.is_approximate(w)
        } else {
            floating::Layout { k: f.k }.is_approximate(w)
        }
    }

    // Its fields, for those that store it in another way.
    pub fn fields(self) -> Fields
        ensures { result ≡ fields_in self.format self.word }
    {
        let f = self.format;
        let w = self.word;
        if !f.k_fits() {
            return Fields::Fixed(FixedFields {
                negative: false,
                numerator: 0,
                approximate: false,
                denominator: 0,
            });
        }
        if f.kind == Format::FIXED {
            Fields::Fixed(fixed::Layout { k: f.k }.fields(w))
        } else {
            Fields::Floating(floating::Layout { k: f.k }.fields(w))
        }
    }
}

// What a word of a format says.
pub fn read(f: Format, w: u64) -> Result<Number, Stop>
    ensures { result ≡ read_word f w }
{
    let g = check(f, w)?;
    let v = g.value();
    Ok(Number {
        value: v,
        approximate: g.is_approximate(),
    })
}
