// A conversion at each place of a lent vector, the result in a lent vector.
ghost use Rattle.std.specs.Prelude.{◌≡◌, true, map, length};
ghost use Rattle.slash.specs.Steps.{or_zero};
ghost use Rattle.slash.specs.Answers.{WhenDone};
ghost use Rattle.slash.specs.Formats.{known};
ghost use Rattle.vectors.specs.Each.{vector_after, stop_only, EachPlace};
ghost use Rattle.conversion.specs.Conversion.{convert_word};
ghost use Rattle.conversion.specs.Each.{convert_each, BestConverted};

use crate::conversion::converted;
use slash::{Format, Stop};

// The words have been checked, so that none is 0 for a stop.
fn store_converted(source: Format, target: Format, operand: &[u64], out: &mut [u64])
    requires { (known source ≡ true) × (known target ≡ true) × (length operand.now ≡ length out.old) }
    ensures { out.new ≡ map (λ x. or_zero (convert_word source target x)) operand.now }
{
    for (i, w) in operand.iter().enumerate() {
        out[i] = converted(source, target, *w).unwrap_or(0);
    }
}

// A conversion at each place of operand.
#[tactic(auto, using(crate::proofs::EachLaws::steps), unfolding(vectors::specs::Each::stop_only, vectors::specs::Each::vector_after))]
pub fn convert_each(
    source: Format,
    target: Format,
    operand: &[u64],
    out: &mut [u64],
) -> Result<(), Stop>
    ensures answered { result ≡ stop_only (convert_each source target operand.now out.old) }
    ensures stored { out.new ≡ vector_after (convert_each source target operand.now out.old) out.old }
    ensures best { WhenDone result (λ _. EachPlace (BestConverted source target) operand.now out.new) }
{
    source.check()?;
    target.check()?;
    if operand.len() != out.len() {
        return Err(Stop::plain(Stop::LENGTH));
    }
    vectors::check_words(source, operand)?;
    store_converted(source, target, operand, out);
    Ok(())
}
