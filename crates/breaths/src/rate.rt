// A recording's tick rate.
ghost use Rattle.std.specs.Prelude.{◌≡◌, ◌*◌};
ghost use Rattle.breaths.specs.Rates.{make_rate};

use slash::Stop;

// So many ticks a second, from 1 to 4096: only `make` makes one.
#[derive(Clone, Copy)]
pub struct Rate {
    ticks: u32,
}

// A breath of more seconds is void.
const MOST_SECONDS: u64 = 120;

impl Rate {
    pub const LEAST: u64 = 1;

    pub const MOST: u64 = 4096;

    // The number of the stop for any other rate: a number, as `Stop` holds one.
    pub const REFUSED: u64 = 19;

    pub fn make(ticks: u64) -> Result<Rate, Stop>
        ensures { result ≡ make_rate ticks }
    {
        if (ticks < Rate::LEAST) | (Rate::MOST < ticks) {
            return Err(Stop::plain(Rate::REFUSED));
        }
        Ok(Rate {
            ticks: ticks as u32,
        })
    }

    // The ticks a second.
    pub fn per_second(self) -> u64
        ensures { result ≡ self.ticks }
    {
        self.ticks as u64
    }

    // The longest whole of a breath that isn't void, in ticks.
    pub fn longest_whole(self) -> u64
        ensures { result ≡ 120 * self.ticks }
    {
        MOST_SECONDS * self.per_second()
    }
}
