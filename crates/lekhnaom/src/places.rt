// Calls on vectors.

#![tactic(auto, unfolding(crate::specs::Status::status, vectors::specs::Each::stop_only))]

ghost use Rattle.std.specs.Prelude.{◌≡◌};
ghost use Rattle.slash.specs.Formats.{format_of};
ghost use Rattle.slash.specs.Answers.{WhenDone};
ghost use Rattle.vectors.specs.Each.{vector_after, EachPlace};
ghost use Rattle.vectors.specs.Places.{places};
ghost use Rattle.arithmetic.specs.Each.{binary_each, BestBinary};
ghost use Rattle.conversion.specs.Each.{convert_each, BestConverted};
ghost use Rattle.unary.specs.Each.{unary_each, BestUnary};
ghost use Rattle.twisting.specs.Each.{twist_each, untwist_each};
ghost use Rattle.lekhnaom.specs.Status.{status};

use crate::status::status;
use slash::Format;

// A binary operation at each place. Stops 1, 2, 3, 4, 5.
#[unsafe(no_mangle)]
pub extern "C" fn slash_binary_each(
    kind: u64,
    k: u64,
    code: u64,
    left: &[u64],
    right: &[u64],
    out: &mut [u64],
) -> u64
    ensures returned { result ≡ status (binary_each (format_of kind k) code left.now right.now out.old) }
    ensures stored { out.new ≡ vector_after (binary_each (format_of kind k) code left.now right.now out.old) out.old }
    ensures best { WhenDone (binary_each (format_of kind k) code left.now right.now out.old) (λ _. EachPlace (BestBinary (format_of kind k) code) (places left.now right.now) out.new) }
{
    let f = Format { kind, k };
    status(arithmetic::binary_each(f, code, left, right, out))
}

// A unary operation at each place. Stops 1, 2, 3, 4, 5.
#[unsafe(no_mangle)]
pub extern "C" fn slash_unary_each(
    kind: u64,
    k: u64,
    code: u64,
    operand: &[u64],
    out: &mut [u64],
) -> u64
    ensures returned { result ≡ status (unary_each (format_of kind k) code operand.now out.old) }
    ensures stored { out.new ≡ vector_after (unary_each (format_of kind k) code operand.now out.old) out.old }
    ensures best { WhenDone (unary_each (format_of kind k) code operand.now out.old) (λ _. EachPlace (BestUnary (format_of kind k) code) operand.now out.new) }
{
    let f = Format { kind, k };
    status(unary::unary_each(f, code, operand, out))
}

// A conversion at each place. Stops 1, 3, 4, 5.
#[unsafe(no_mangle)]
pub extern "C" fn slash_convert_each(
    kind: u64,
    k: u64,
    tokind: u64,
    tok: u64,
    operand: &[u64],
    out: &mut [u64],
) -> u64
    ensures returned { result ≡ status (convert_each (format_of kind k) (format_of tokind tok) operand.now out.old) }
    ensures stored { out.new ≡ vector_after (convert_each (format_of kind k) (format_of tokind tok) operand.now out.old) out.old }
    ensures best { WhenDone (convert_each (format_of kind k) (format_of tokind tok) operand.now out.old) (λ _. EachPlace (BestConverted (format_of kind k) (format_of tokind tok)) operand.now out.new) }
{
    let source = Format { kind, k };
    let target = Format {
        kind: tokind,
        k: tok,
    };
    status(conversion::convert_each(source, target, operand, out))
}

// Plain floating words twisted at each place. Stops 1 (for a fixed format too), 3, 4, 5.
#[unsafe(no_mangle)]
pub extern "C" fn slash_twist_each(kind: u64, k: u64, operand: &[u64], out: &mut [u64]) -> u64
    ensures returned { result ≡ status (twist_each (format_of kind k) operand.now out.old) }
    ensures stored { out.new ≡ vector_after (twist_each (format_of kind k) operand.now out.old) out.old }
{
    let f = Format { kind, k };
    status(twisting::twist_each(f, operand, out))
}

// Twisted words untwisted at each place. Stops 1 (for a fixed format too), 3, 4, 5.
#[unsafe(no_mangle)]
pub extern "C" fn slash_untwist_each(kind: u64, k: u64, operand: &[u64], out: &mut [u64]) -> u64
    ensures returned { result ≡ status (untwist_each (format_of kind k) operand.now out.old) }
    ensures stored { out.new ≡ vector_after (untwist_each (format_of kind k) operand.now out.old) out.old }
{
    let f = Format { kind, k };
    status(twisting::untwist_each(f, operand, out))
}
