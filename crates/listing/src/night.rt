// A night that is being listed.
ghost use Rattle.std.specs.Prelude.{◌≡◌, true};
ghost use Rattle.listing.specs.Nights.{rated, with_line, is_rated};

use breaths::{Breath, Rate, Sums};

// Nothing of it is read yet, or its rate line is. No Option: a night that is begun isn't missing, and C is
// handed it as four zeros.
#[derive(Clone, Copy)]
pub enum Night {
    Begun,
    Rated(RatedNight),
}

// Its rate, the number of its next breath, from 1, and the sums so far.
#[derive(Clone, Copy)]
pub struct RatedNight {
    pub rate: Rate,
    pub breath: u32,
    pub sums: Sums,
}

impl RatedNight {
    // A night of which the rate line is read and nothing else.
    pub(crate) fn opened(rate: Rate) -> RatedNight
        ensures { result ≡ rated rate }
    {
        RatedNight {
            rate,
            breath: 1,
            sums: Sums {
                inspiration: 0,
                whole: 0,
            },
        }
    }
}

// Whether some recording has this night.
pub(crate) fn is_rated(night: RatedNight) -> bool
    ensures { result ≡ is_rated night }
{
    let breath = night.breath;
    if (breath == 0) | (text::MOST_BREATHS + 1 < breath) {
        return false;
    }
    let most = (breath - 1) as u64 * night.rate.longest_whole();
    let sums = night.sums;
    (sums.whole <= most) & (sums.inspiration <= sums.whole)
}

// The night behind one breath more. Its sums have room for any.
pub(crate) fn with_line(night: RatedNight, b: Breath) -> RatedNight
    requires { is_rated night ≡ true }
    ensures { result ≡ with_line night b }
{
    match night.sums.with_breath(b, night.rate) {
        Some(sums) => RatedNight {
            breath: night.breath + 1,
            sums,
            ..night
        },
        None => night,
    }
}
