// A night's sums of its breaths, and their ratio.
ghost use Rattle.std.specs.Prelude.{◌≡◌};
ghost use Rattle.breaths.specs.Ratios.{word_of, BestRatio};
ghost use Rattle.breaths.specs.Sums.{added_outcome, one_more, night_ratio, night_word};

use crate::breath::Breath;
use crate::rate::Rate;
use crate::ratio::Ratio;

// Breathing in, and whole breaths, summed over the breaths of a night that aren't void.
#[derive(Clone, Copy)]
pub struct Sums {
    pub inspiration: u64,
    pub whole: u64,
}

impl Sums {
    // The sums with one breath more, at a rate: a void breath is left out. None where a sum has no room
    // for it, which never is so of a night's.
    pub fn with_breath(self, b: Breath, rate: Rate) -> Option<Sums>
        ensures { added_outcome result ≡ one_more rate.ticks self b }
    {
        if b.is_void(rate) {
            return Some(self);
        }
        Some(Sums {
            inspiration: self.inspiration.checked_add(b.inspiration as u64)?,
            whole: self.whole.checked_add(b.whole as u64)?,
        })
    }

    // The ratio of a night: void if no breath is left to sum.
    pub fn ratio(self) -> Ratio
        ensures defined { result ≡ night_ratio self }
        ensures word { word_of result ≡ night_word self }
        ensures best { BestRatio self.inspiration self.whole result }
    {
        Ratio::of_parts(self.inspiration, self.whole)
    }
}
