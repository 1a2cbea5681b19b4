// The four binary operations.
ghost use Rattle.std.specs.Prelude.{◌≡◌, ◌<◌, ◌^◌, true, Ok};
ghost use Rattle.slash.specs.Answers.{WhenDone};
ghost use Rattle.slash.specs.Formats.{known, format_of};
ghost use Rattle.slash.specs.Best.{BestForSize};
ghost use Rattle.slash.specs.Reading.{number_of};
ghost use Rattle.slash.specs.Writing.{write_number};
ghost use Rattle.arithmetic.specs.Steps.{Small, value_from, code_of, operation_of};
ghost use Rattle.arithmetic.specs.Operands.{operand_of};
ghost use Rattle.arithmetic.specs.Sizes.{binary_size};
ghost use Rattle.arithmetic.specs.Operations.{sum_size, sum_sign, sum_parts, sum_of, times_infinity, product_parts, product_of, divided_by, quotient_of, exact_of, exact_value, is_binary, binary_word};

use crate::finite::FinitePair;
use crate::operand::Operand;
use slash::{Format, Number, Parts, Stop, Value};

// What the codes stand for.
#[derive(Clone, Copy)]
pub(crate) enum Operation {
    Add,
    Subtract,
    Multiply,
    Divide,
}

// Stop 2 for a code that is none.
impl TryFrom<u64> for Operation {
    type Error = Stop;

    ghost try_from_gives = { λ code r. r ≡ operation_of code };

    #[tactic(auto, unfolding(crate::specs::Steps::operation_of))]
    fn try_from(code: u64) -> Result<Operation, Stop> {
        match code {
            1 => Ok(Operation::Add),
            2 => Ok(Operation::Subtract),
            3 => Ok(Operation::Multiply),
            4 => Ok(Operation::Divide),
            _ => Err(Stop::plain(Stop::CODE)),
        }
    }
}

#[tactic(auto, unfolding(crate::specs::Operations::sum_size))]
fn sum_size(opposed: bool, ad: u64, bc: u64) -> u64
    requires { (ad < 2 ^ 62) × (bc < 2 ^ 62) }
    ensures { result ≡ sum_size opposed ad bc }
{
    if opposed { ad.abs_diff(bc) } else { ad + bc }
}

#[tactic(auto, unfolding(crate::specs::Operations::sum_sign))]
fn sum_sign(s: bool, t: bool, ad: u64, bc: u64, size: u64) -> bool
    ensures { result ≡ sum_sign s t ad bc size }
{
    if size == 0 {
        false
    } else if bc <= ad {
        s
    } else {
        t
    }
}

impl FinitePair {
    #[tactic(auto, unfolding(crate::specs::Operations::sum_parts))]
    fn sum(self) -> Parts
        ensures { result ≡ sum_parts self.p self.q }
    {
        let FinitePair { p, q } = self;
        let ad = p.numerator * q.denominator;
        let bc = p.denominator * q.numerator;
        let size = sum_size(p.negative ^ q.negative, ad, bc);
        Parts {
            negative: sum_sign(p.negative, q.negative, ad, bc, size),
            numerator: size,
            denominator: p.denominator * q.denominator,
        }
    }

    #[tactic(auto, unfolding(crate::specs::Operations::product_parts))]
    fn product(self, negative: bool) -> Parts
        ensures { result ≡ product_parts negative self.p self.q }
    {
        let FinitePair { p, q } = self;
        Parts {
            negative,
            numerator: p.numerator * q.numerator,
            denominator: p.denominator * q.denominator,
        }
    }

    #[tactic(auto, unfolding(crate::specs::Operations::divided_by))]
    fn quotient(self, negative: bool) -> Value
        ensures { result ≡ divided_by negative self.p self.q }
    {
        let FinitePair { p, q } = self;
        if q.numerator == 0 {
            if p.numerator == 0 {
                return Value::NotANumber;
            }
            return Value::Infinity(negative);
        }
        Value::Fraction(Parts {
            negative,
            numerator: p.numerator * q.denominator,
            denominator: p.denominator * q.numerator,
        })
    }
}

#[tactic(auto, using(crate::proofs::OperandLaws::products), unfolding(crate::specs::Operations::sum_of))]
fn sum(x: Operand, y: Operand) -> Value
    requires { Small x × Small y }
    ensures { result ≡ sum_of x y }
{
    match (x, y) {
        (Operand::Finite(p), Operand::Finite(q)) => Value::Fraction(FinitePair { p, q }.sum()),
        (Operand::Finite(_), Operand::Infinite(t)) => Value::Infinity(t),
        (Operand::Infinite(s), Operand::Infinite(t)) if s ^ t => Value::NotANumber,
        (Operand::Infinite(s), _) => Value::Infinity(s),
    }
}

#[tactic(auto, unfolding(crate::specs::Operations::times_infinity))]
fn times_infinity(s: bool, p: Parts) -> Value
    ensures { result ≡ times_infinity s p }
{
    if p.numerator == 0 {
        Value::NotANumber
    } else {
        Value::Infinity(s)
    }
}

// The product of two operands whose signs have the product s.
#[tactic(auto, using(crate::proofs::OperandLaws::products), unfolding(crate::specs::Operations::product_of))]
fn product(s: bool, x: Operand, y: Operand) -> Value
    requires { Small x × Small y }
    ensures { result ≡ product_of s x y }
{
    match (x, y) {
        (Operand::Finite(p), Operand::Finite(q)) => Value::Fraction(FinitePair { p, q }.product(s)),
        (Operand::Finite(p), Operand::Infinite(_)) => times_infinity(s, p),
        (Operand::Infinite(_), Operand::Finite(q)) => times_infinity(s, q),
        (Operand::Infinite(_), Operand::Infinite(_)) => Value::Infinity(s),
    }
}

// The quotient of two operands whose signs have the product s.
#[tactic(auto, using(crate::proofs::OperandLaws::products), unfolding(crate::specs::Operations::quotient_of))]
fn quotient(s: bool, x: Operand, y: Operand) -> Value
    requires { Small x × Small y }
    ensures { result ≡ quotient_of s x y }
{
    match (x, y) {
        (Operand::Finite(p), Operand::Finite(q)) => FinitePair { p, q }.quotient(s),
        (Operand::Finite(_), Operand::Infinite(_)) => Value::Zero(s),
        (Operand::Infinite(_), Operand::Finite(_)) => Value::Infinity(s),
        (Operand::Infinite(_), Operand::Infinite(_)) => Value::NotANumber,
    }
}

#[tactic(auto, unfolding(crate::specs::Operations::exact_of, crate::specs::Steps::code_of))]
fn exact(operation: Operation, x: Operand, y: Operand) -> Value
    requires { Small x × Small y }
    ensures { result ≡ exact_of (code_of operation) x y }
{
    match operation {
        Operation::Add => sum(x, y),
        Operation::Subtract => sum(x, y.turned()),
        Operation::Multiply => product(x.sign() ^ y.sign(), x, y),
        Operation::Divide => quotient(x.sign() ^ y.sign(), x, y),
    }
}

// The exact result of two values: any not-a-number operand gives one.
#[tactic(auto, unfolding(crate::specs::Operations::exact_value))]
fn exact_value(operation: Operation, v: Value, w: Value) -> Value
    requires { Small (operand_of v) × Small (operand_of w) }
    ensures { result ≡ exact_value (code_of operation) v w }
{
    if slash::is_nan(v) | slash::is_nan(w) {
        return Value::NotANumber;
    }
    exact(operation, Operand::from(v), Operand::from(w))
}

// Whether there is such a code.
#[tactic(auto, using(crate::proofs::OperationLaws::operation_ok))]
pub fn is_binary(code: u64) -> bool
    ensures { result ≡ is_binary code }
{
    Operation::try_from(code).is_ok()
}

// The value of parts, as `slash::parts_of` gives them; zero is the fraction 0/1.
#[tactic(auto, unfolding(crate::specs::Steps::value_from))]
fn value_from(negative: bool, numerator: u64, denominator: u64) -> Value
    ensures { result ≡ value_from negative numerator denominator }
{
    match (numerator, denominator) {
        (0, 0) => Value::NotANumber,
        (_, 0) => Value::Infinity(negative),
        _ => Value::Fraction(Parts {
            negative,
            numerator,
            denominator,
        }),
    }
}

// What a/b and c/d with the signs s and t come to, written: in plain numbers, of which the first
// six stay in registers. Handed on as `Parts` and a `Format`, a call took 6 to 12 % longer.
#[tactic(auto, using(crate::proofs::OperationLaws::written_from, crate::proofs::OperationLaws::written_good))]
fn combined_word(
    operation: Operation,
    a: u64,
    b: u64,
    c: u64,
    d: u64,
    kind: u64,
    k: u64,
    s: bool,
    t: bool,
    approximate: bool,
) -> u64
    requires { (known (format_of kind k) ≡ true) × Small (operand_of (value_from s a b)) × Small (operand_of (value_from t c d)) }
    ensures { Ok result ≡ write_number (format_of kind k) (record { value = exact_value (code_of operation) (value_from s a b) (value_from t c d); approximate = approximate }) }
{
    let f = Format { kind, k };
    let v = value_from(s, a, b);
    let w = value_from(t, c, d);
    let value = exact_value(operation, v, w);
    slash::write(f, Number { value, approximate }).unwrap()
}

// The word of two words combined, of a known format. The left word is checked first.
#[inline(always)]
#[tactic(auto, using(crate::proofs::OperationLaws::steps))]
pub(crate) fn combined(f: Format, operation: Operation, left: u64, right: u64) -> Result<u64, Stop>
    requires { known f ≡ true }
    ensures { result ≡ binary_word f (code_of operation) left right }
{
    let x = slash::check(f, left)?;
    let y = slash::check(f, right)?;
    let p = slash::parts_of(x.value());
    let q = slash::parts_of(y.value());
    let marked = x.is_approximate() | y.is_approximate();
    Ok(combined_word(
        operation,
        p.numerator,
        p.denominator,
        q.numerator,
        q.denominator,
        f.kind,
        f.k,
        p.negative,
        q.negative,
        marked,
    ))
}

// left and right combined: code 1 adds, 2 subtracts, 3 multiplies, 4 divides.
#[tactic(auto, using(crate::proofs::OperationLaws::steps))]
pub fn binary(f: Format, code: u64, left: u64, right: u64) -> Result<u64, Stop>
    ensures written { result ≡ binary_word f code left right }
    ensures best { WhenDone result (λ w. BestForSize f (binary_size code (number_of f left).value (number_of f right).value) w) }
{
    f.check()?;
    let operation = Operation::try_from(code)?;
    combined(f, operation, left, right)
}
