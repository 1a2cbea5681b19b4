// A ratio as a slash word of fixed k = 15.
ghost use Rattle.std.specs.Prelude.{◌≡◌};
ghost use Rattle.breaths.specs.Ratios.{ratio_format, word_of, ratio_of, parts_ratio, BestRatio};

use crate::proportion::proportion_word;
use slash::Format;

// The word, or that there is nothing to take a ratio of. No Option: a void breath is an answer of its own,
// with a word that is stored for it and a line of its own, and these are methods.
#[derive(Clone, Copy)]
pub enum Ratio {
    Void,
    Word(u64),
}

impl Ratio {
    // The format of every ratio's word.
    pub fn format() -> Format
        ensures { result ≡ ratio_format }
    {
        Format {
            kind: Format::FIXED,
            k: 15,
        }
    }

    // The word that is stored for it: 0 where it is void.
    pub fn word(self) -> u64
        ensures { result ≡ word_of self }
    {
        match self {
            Ratio::Void => 0,
            Ratio::Word(w) => w,
        }
    }

    // The ratio that a stored word stands for: 0 is void.
    pub fn of_word(w: u64) -> Ratio
        ensures { result ≡ ratio_of w }
    {
        if w == 0 { Ratio::Void } else { Ratio::Word(w) }
    }

    // n/d, rounded. Those up to 1 with an n of 32 bits that isn't 0, as nearly every breath's, go by a way
    // of their own.
    // The format is known, so that only d = 0 stops the writing: there is no ratio then.
    pub fn of_parts(n: u64, d: u64) -> Ratio
        ensures defined { result ≡ parts_ratio n d }
        ensures best { BestRatio n d result }
    {
        if (n != 0) & (n <= d) & (n <= u32::MAX as u64) {
            return Ratio::Word(proportion_word(n as u32, d));
        }
        match slash::round_word(Ratio::format(), n, d) {
            Ok(w) => Ratio::Word(w),
            Err(_) => Ratio::Void,
        }
    }
}
