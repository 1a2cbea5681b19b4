// A binary32 number by its bits, and the ratio of two.
ghost use Rattle.std.specs.Prelude.{◌≡◌};
ghost use Rattle.importing.specs.Floats.{significand, exponent, float_ratio};
ghost use Rattle.importing.specs.Steps.{InOrder, rounded_ratio};

use breaths::Ratio;

// The bits of 2^-10, of 1 and of 2^10.
pub(crate) const LEAST: u32 = 0x3a800000;

pub(crate) const ONE: u32 = 0x3f800000;

pub(crate) const BEYOND: u32 = 0x44800000;

// What the lowest bit of the exponent counts, and the leading 1 of the significand, which isn't stored.
const LEADING: u32 = 0x00800000;

fn significand_of(bits: u32) -> u64
    ensures { result ≡ significand bits }
{
    (LEADING + bits % LEADING) as u64
}

fn exponent_of(bits: u32) -> u64
    ensures { result ≡ exponent bits }
{
    (bits / LEADING) as u64
}

// The ratio of two numbers, exact and then rounded. The first isn't the larger one, so that only the
// second's significand is shifted: by less than 20 places, so that no bit is lost.
pub(crate) fn ratio_of(first: u32, second: u32) -> Ratio
    requires { InOrder first second }
    ensures { result ≡ rounded_ratio (float_ratio first second) }
{
    let distance = exponent_of(second) - exponent_of(first);
    Ratio::of_parts(significand_of(first), significand_of(second) << distance)
}
