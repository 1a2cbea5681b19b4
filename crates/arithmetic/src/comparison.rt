// Comparison of two words of one format.
ghost use Rattle.std.specs.Prelude.{◌≡◌, ◌<◌, ◌^◌};
ghost use Rattle.arithmetic.specs.Steps.{Small, on_line, is_fraction};
ghost use Rattle.arithmetic.specs.Operands.{operand_of};
ghost use Rattle.arithmetic.specs.Comparison.{comparison_outcome, order_of, signed_order, outside, compare_of, compare_values, compare_words};

use crate::finite::FinitePair;
use crate::operand::Operand;
use slash::{Format, Parts, Stop, Value};

// How the left word stands to the right one.
#[derive(Clone, Copy)]
pub enum Order {
    Below,
    Equal,
    Above,
    Unordered,
}

// 2^62, where 0 lies on a line of numbers below 2^62 with signs.
const ZERO: u64 = 1 << 62;

#[tactic(auto, unfolding(crate::specs::Comparison::order_of))]
fn size_order(m: u64, n: u64) -> Order
    ensures { result ≡ order_of m n }
{
    if m < n {
        return Order::Below;
    }
    if m == n { Order::Equal } else { Order::Above }
}

// Where a number of this sign and size lies on a line that has 0 at ZERO.
fn place(negative: bool, size: u64) -> u64
    requires { size < 2 ^ 62 }
    ensures { result ≡ on_line negative size }
{
    if negative { ZERO - size } else { ZERO + size }
}

// +0 = -0, and otherwise what is negative lies below what isn't. By places on a line, so that no
// branch hangs on a sign.
#[tactic(auto, using(crate::proofs::ComparisonLaws::line_order))]
fn signed_order(s: bool, t: bool, m: u64, n: u64) -> Order
    requires { (m < 2 ^ 62) × (n < 2 ^ 62) }
    ensures { result ≡ signed_order s t m n }
{
    size_order(place(s, m), place(t, n))
}

// Where an infinity of this sign lies.
#[tactic(auto, unfolding(crate::specs::Comparison::outside))]
fn outside_all(s: bool) -> Order
    ensures { result ≡ outside s }
{
    if s { Order::Below } else { Order::Above }
}

impl FinitePair {
    // By the products of the parts across.
    #[tactic(auto, unfolding(crate::specs::Comparison::compare_of))]
    fn order(self) -> Order
        ensures { result ≡ compare_of (Operand.Finite self.p) (Operand.Finite self.q) }
    {
        let FinitePair { p, q } = self;
        signed_order(
            p.negative,
            q.negative,
            p.numerator * q.denominator,
            q.numerator * p.denominator,
        )
    }
}

#[tactic(auto, using(crate::proofs::OperandLaws::products), unfolding(crate::specs::Comparison::compare_of))]
fn compare_operands(x: Operand, y: Operand) -> Order
    requires { Small x × Small y }
    ensures { result ≡ compare_of x y }
{
    match (x, y) {
        (Operand::Finite(p), Operand::Finite(q)) => FinitePair { p, q }.order(),
        (Operand::Finite(_), Operand::Infinite(t)) => outside_all(!t),
        (Operand::Infinite(s), Operand::Infinite(t)) if s == t => Order::Equal,
        (Operand::Infinite(s), _) => outside_all(s),
    }
}

// Unordered if either is not-a-number.
#[tactic(auto, unfolding(crate::specs::Comparison::compare_values))]
fn compare_any(v: Value, w: Value) -> Order
    requires { Small (operand_of v) × Small (operand_of w) }
    ensures { result ≡ compare_values v w }
{
    if slash::is_nan(v) | slash::is_nan(w) {
        return Order::Unordered;
    }
    compare_operands(Operand::from(v), Operand::from(w))
}

#[tactic(auto, unfolding(crate::specs::Steps::is_fraction))]
fn is_fraction(v: Value) -> bool
    ensures { result ≡ is_fraction v }
{
    matches!(v, Value::Fraction(_))
}

// Two fractions, which most words are, go the short way: one test for both, so that there is one
// branch. By `if let` on the pair, two floating words took a tenth longer.
fn compare_values(v: Value, w: Value) -> Order
    requires { Small (operand_of v) × Small (operand_of w) }
    ensures { result ≡ compare_values v w }
{
    if is_fraction(v) & is_fraction(w) {
        let p = slash::parts_of(v);
        let q = slash::parts_of(w);
        return FinitePair { p, q }.order();
    }
    compare_any(v, w)
}

pub fn compare(f: Format, left: u64, right: u64) -> Result<Order, Stop>
    ensures { comparison_outcome result ≡ compare_words f left right }
{
    let x = slash::check(f, left)?;
    let y = slash::check(f, right)?;
    let v = x.value();
    let w = y.value();
    Ok(compare_values(v, w))
}
