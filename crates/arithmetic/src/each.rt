// A binary operation at each place of lent vectors, the result in a lent vector.
ghost use Rattle.std.specs.Prelude.{◌≡◌, true, map, length};
ghost use Rattle.slash.specs.Answers.{WhenDone};
ghost use Rattle.slash.specs.Formats.{known};
ghost use Rattle.vectors.specs.Each.{vector_after, stop_only, EachPlace};
ghost use Rattle.vectors.specs.Places.{places};
ghost use Rattle.arithmetic.specs.Each.{binary_each, BestBinary};
ghost use Rattle.arithmetic.specs.Steps.{binary_in, code_of};

use crate::operation::{Operation, combined};
use slash::{Format, Stop};

// The words have been checked, so that none is 0 for a stop.
fn store_binary(f: Format, operation: Operation, left: &[u64], right: &[u64], out: &mut [u64])
    requires { (known f ≡ true) × (length left.now ≡ length right.now) × (length left.now ≡ length out.old) }
    ensures { out.new ≡ map (binary_in f (code_of operation)) (places left.now right.now) }
{
    for (i, l) in left.iter().enumerate() {
        out[i] = combined(f, operation, *l, right[i]).unwrap_or(0);
    }
}

// A binary operation at each place of left and right.
#[tactic(auto, using(crate::proofs::EachLaws::steps), unfolding(vectors::specs::Each::stop_only, vectors::specs::Each::vector_after))]
pub fn binary_each(
    f: Format,
    code: u64,
    left: &[u64],
    right: &[u64],
    out: &mut [u64],
) -> Result<(), Stop>
    ensures answered { result ≡ stop_only (binary_each f code left.now right.now out.old) }
    ensures stored { out.new ≡ vector_after (binary_each f code left.now right.now out.old) out.old }
    ensures best { WhenDone result (λ _. EachPlace (BestBinary f code) (places left.now right.now) out.new) }
{
    f.check()?;
    let operation = Operation::try_from(code)?;
    if left.len() != right.len() || left.len() != out.len() {
        return Err(Stop::plain(Stop::LENGTH));
    }
    vectors::check_pairs(f, left, right)?;
    store_binary(f, operation, left, right, out);
    Ok(())
}
