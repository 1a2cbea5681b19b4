// Conversion of a word into another format.
ghost use Rattle.std.specs.Prelude.{◌≡◌, true};
ghost use Rattle.slash.specs.Answers.{WhenDone};
ghost use Rattle.slash.specs.Best.{BestForValue};
ghost use Rattle.slash.specs.Formats.{known};
ghost use Rattle.slash.specs.Reading.{number_of};
ghost use Rattle.conversion.specs.Conversion.{convert_word};

use slash::{Format, Number, Stop};

// w as a word of the target, where both formats are known.
#[inline(always)]
#[tactic(auto, using(crate::proofs::ConversionLaws::steps))]
pub(crate) fn converted(source: Format, target: Format, w: u64) -> Result<u64, Stop>
    requires { (known source ≡ true) × (known target ≡ true) }
    ensures { result ≡ convert_word source target w }
{
    let x = slash::check(source, w)?;
    let value = x.value();
    let approximate = x.is_approximate();
    slash::write(target, Number { value, approximate })
}

// w, a word of the source format, as a word of the target's.
#[tactic(auto, using(crate::proofs::ConversionLaws::steps))]
pub fn convert(source: Format, target: Format, w: u64) -> Result<u64, Stop>
    ensures written { result ≡ convert_word source target w }
    ensures best { WhenDone result (λ v. BestForValue target (number_of source w).value v) }
{
    source.check()?;
    target.check()?;
    converted(source, target, w)
}
