// A unary operation at each place of a lent vector, the result in a lent vector.
ghost use Rattle.std.specs.Prelude.{◌≡◌, true, map, length};
ghost use Rattle.slash.specs.Steps.{or_zero};
ghost use Rattle.slash.specs.Answers.{WhenDone};
ghost use Rattle.slash.specs.Formats.{known};
ghost use Rattle.vectors.specs.Each.{vector_after, stop_only, EachPlace};
ghost use Rattle.unary.specs.Operations.{is_unary, unary_word};
ghost use Rattle.unary.specs.Each.{unary_each, BestUnary};

use crate::operation::{is_unary, unary_word};
use slash::{Format, Stop};

// The words have been checked: none is 0 for a stop. (`conversion` has the same loop: one for both would take
// the operation as a closure, whose contract is longer than the loop.)
fn store_unary(f: Format, code: u64, operand: &[u64], out: &mut [u64])
    requires { (known f ≡ true) × (is_unary code ≡ true) × (length operand.now ≡ length out.old) }
    ensures { out.new ≡ map (λ x. or_zero (unary_word f code x)) operand.now }
{
    for (i, w) in operand.iter().enumerate() {
        out[i] = unary_word(f, code, *w).unwrap_or(0);
    }
}

// A unary operation at each place of operand.
pub fn unary_each(f: Format, code: u64, operand: &[u64], out: &mut [u64]) -> Result<(), Stop>
    ensures answered { result ≡ stop_only (unary_each f code operand.now out.old) }
    ensures stored { out.new ≡ vector_after (unary_each f code operand.now out.old) out.old }
    ensures best { WhenDone result (λ _. EachPlace (BestUnary f code) operand.now out.new) }
{
    f.check()?;
    if !is_unary(code) {
        return Err(Stop::plain(Stop::CODE));
    }
    if operand.len() != out.len() {
        return Err(Stop::plain(Stop::LENGTH));
    }
    vectors::check_words(f, operand)?;
    store_unary(f, code, operand, out);
    Ok(())
}
