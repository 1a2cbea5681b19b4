// A word format: a kind and a number k.
ghost use Rattle.std.specs.Prelude.{◌≡◌, true, ◌≤◌};
ghost use Rattle.slash.specs.Formats.{known, k_fits, check_format, make_format, of_known, slash_bits, width_of, largest_part};

use crate::answer::Stop;
use crate::bits::{bit_count, power};

// The kind is FIXED or FLOATING. A format that a caller made by hand may be of no such kind, or
// have no such k: each function that takes one sees to that itself, with stop 1, so that the kind is a
// number and no enum.
#[derive(Clone, Copy)]
pub struct Format {
    pub kind: u64,
    pub k: u64,
}

impl Format {
    pub const FIXED: u64 = 1;

    pub const FLOATING: u64 = 2;

    pub const LEAST_K: u64 = 2;

    pub const MOST_FIXED_K: u64 = 31;

    pub const MOST_FLOATING_K: u64 = 32;

    pub fn make(kind: u64, k: u64) -> Result<Format, Stop>
        ensures { result ≡ make_format kind k }
    {
        let f = Format { kind, k };
        f.check()?;
        Ok(f)
    }

    // Whether the format is refused: what every call that takes one asks first.
    pub fn check(self) -> Result<(), Stop>
        ensures { result ≡ check_format self }
    {
        if self.is_known() {
            Ok(())
        } else {
            Err(Stop::plain(Stop::FORMAT))
        }
    }

    // How many bits a word has.
    pub fn width(self) -> Result<u64, Stop>
        ensures { result ≡ of_known self (width_of self) }
    {
        self.check()?;
        Ok(self.word_bits())
    }

    // The largest numerator of a pair that the format holds, 1/0 aside.
    pub fn largest_numerator(self) -> Result<u64, Stop>
        ensures { result ≡ of_known self (largest_part self) }
    {
        self.check()?;
        Ok(self.largest_part())
    }

    // The largest denominator of a pair that the format holds: the same.
    pub fn largest_denominator(self) -> Result<u64, Stop>
        ensures { result ≡ of_known self (largest_part self) }
    {
        self.largest_numerator()
    }

    // Whether the kind is one of the two, and k within its bounds.
    pub fn is_known(self) -> bool
        ensures { result ≡ known self }
    {
        let kind = (self.kind == Format::FIXED) | (self.kind == Format::FLOATING);
        kind & self.k_fits()
    }

    // Whether k is within its bounds; a kind that isn't fixed is taken as floating.
    pub(crate) fn k_fits(self) -> bool
        ensures { result ≡ k_fits self }
    {
        if self.kind == Format::FIXED {
            (Format::LEAST_K <= self.k) & (self.k <= Format::MOST_FIXED_K)
        } else {
            (Format::LEAST_K <= self.k) & (self.k <= Format::MOST_FLOATING_K)
        }
    }

    pub(crate) fn word_bits(self) -> u64
        requires { known self ≡ true }
        ensures { result ≡ width_of self }
    {
        if self.kind == Format::FIXED {
            2 * self.k + 2
        } else {
            self.k + slash_bits(self.k) + 1
        }
    }

    // The numerator and the denominator have one largest value: a floating pair with one part 1 has
    // all but one of the k bits for the other.
    fn largest_part(self) -> u64
        requires { known self ≡ true }
        ensures { result ≡ largest_part self }
    {
        if self.kind == Format::FIXED {
            power(self.k) - 1
        } else {
            power(self.k - 1) - 1
        }
    }
}

// L, the least whole number with 2^L at least k: as many bits as k - 1 takes.
pub(crate) fn slash_bits(k: u64) -> u64
    requires { 2 ≤ k }
    ensures { result ≡ slash_bits k }
{
    bit_count(k - 1)
}
