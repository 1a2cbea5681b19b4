// What a word says: a signed fraction, zero, infinity or not-a-number, and the mark beside it.
ghost use Rattle.std.specs.Prelude.{◌≡◌};
ghost use Rattle.slash.specs.Numbers.{is_nan, parts_of};

// The parts of a fraction. Of a word they are as stored: neither is 0, and they need not be in
// lowest terms. A number to be written may have any parts.
#[derive(Clone, Copy)]
pub struct Parts {
    pub negative: bool,
    pub numerator: u64,
    pub denominator: u64,
}

// A zero and an infinity hold their sign: true is negative.
#[derive(Clone, Copy)]
pub enum Value {
    Fraction(Parts),
    Zero(bool),
    Infinity(bool),
    NotANumber,
}

// A value with its mark: exact, or approximate.
#[derive(Clone, Copy)]
pub struct Number {
    pub value: Value,
    pub approximate: bool,
}

// The parts of a value: a fraction's own, zero as 0/1, infinity as 1/0, not-a-number as 0/0.
pub fn parts_of(v: Value) -> Parts
    ensures { result ≡ parts_of v }
{
    match v {
        Value::Fraction(p) => p,
        Value::Zero(s) => Parts {
            negative: s,
            numerator: 0,
            denominator: 1,
        },
        Value::Infinity(s) => Parts {
            negative: s,
            numerator: 1,
            denominator: 0,
        },
        Value::NotANumber => Parts {
            negative: false,
            numerator: 0,
            denominator: 0,
        },
    }
}

// Whether a value is not-a-number.
pub fn is_nan(v: Value) -> bool
    ensures { result ≡ is_nan v }
{
    matches!(v, Value::NotANumber)
}
