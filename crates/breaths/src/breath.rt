// A breath's durations, and its ratio.
ghost use Rattle.std.specs.Prelude.{◌≡◌};
ghost use Rattle.slash.specs.Answers.{WhenDone};
ghost use Rattle.breaths.specs.Breaths.{breath_of, is_void, breath_ratio, breath_word, breath_stored};
ghost use Rattle.breaths.specs.Ratios.{word_of, ratio_of, BestRatio};

use crate::rate::Rate;
use crate::ratio::Ratio;
use slash::Stop;

// Breathing in, and the whole breath, in ticks of a clock that is 32 bits wide.
#[derive(Clone, Copy)]
pub struct Breath {
    pub inspiration: u32,
    pub whole: u32,
}

impl Breath {
    // The breath between two onsets, from its tick marks.
    pub fn between(onset: u32, peak: u32, next: u32) -> Breath
        ensures { result ≡ breath_of onset peak next }
    {
        Breath {
            inspiration: peak.wrapping_sub(onset),
            whole: next.wrapping_sub(onset),
        }
    }

    pub fn is_void(self, rate: Rate) -> bool
        ensures { result ≡ is_void rate.ticks self }
    {
        (self.whole == 0)
            | (self.whole < self.inspiration)
            | (rate.longest_whole() < (self.whole as u64))
    }

    // The ratio of breathing in to whole breath.
    pub fn ratio(self, rate: Rate) -> Ratio
        ensures defined { result ≡ breath_ratio rate.ticks self }
        ensures word { word_of result ≡ breath_word rate.ticks self }
        ensures best { BestRatio self.inspiration self.whole result }
    {
        if self.is_void(rate) {
            Ratio::Void
        } else {
            Ratio::of_parts(self.inspiration as u64, self.whole as u64)
        }
    }
}

// The word that a recorder stores for the breath between two onsets, at a rate: 0 where it is void. Stop
// 19: a rate out of 1 to 4096.
pub fn stored_word(rate: u64, onset: u32, peak: u32, next: u32) -> Result<u64, Stop>
    ensures defined { result ≡ breath_stored rate onset peak next }
    ensures best { WhenDone result (λ w. BestRatio (breath_of onset peak next).inspiration (breath_of onset peak next).whole (ratio_of w)) }
{
    let known = Rate::make(rate)?;
    let b = Breath::between(onset, peak, next);
    let r = b.ratio(known);
    Ok(r.word())
}
