// An operand of an operation: a finite value with its parts, or an infinity. Not-a-number is taken
// out before.
ghost use Rattle.std.specs.Prelude.{◌≡◌};
ghost use Rattle.arithmetic.specs.Operands.{operand_of, sign_of, turned};

use slash::{Parts, Value};

// That its parts are small is said by those who take two (`Small`): an enum has no ghost field, a fact
// by cases would need a proof in one that any two of its proofs are equal, and `operand_of` in specs/
// makes operands of values of any size.
#[derive(Clone, Copy)]
pub(crate) enum Operand {
    Finite(Parts),
    Infinite(bool),
}

// Zero is finite too, as 0/1.
impl From<Value> for Operand {
    ghost from_gives = { λ v r. r ≡ operand_of v };

    #[tactic(auto, unfolding(crate::specs::Operands::operand_of))]
    fn from(v: Value) -> Operand {
        match v {
            Value::Fraction(_) | Value::Zero(_) => Operand::Finite(slash::parts_of(v)),
            Value::Infinity(s) => Operand::Infinite(s),
            Value::NotANumber => Operand::Infinite(false),
        }
    }
}

impl Operand {
    #[tactic(auto, unfolding(crate::specs::Operands::sign_of))]
    pub(crate) fn sign(self) -> bool
        ensures { result ≡ sign_of self }
    {
        match self {
            Operand::Finite(p) => p.negative,
            Operand::Infinite(s) => s,
        }
    }

    // The same operand with its sign turned.
    #[tactic(auto, unfolding(crate::specs::Operands::turned))]
    pub(crate) fn turned(self) -> Operand
        ensures { result ≡ turned self }
    {
        match self {
            Operand::Finite(p) => Operand::Finite(Parts {
                negative: !p.negative,
                ..p
            }),
            Operand::Infinite(s) => Operand::Infinite(!s),
        }
    }
}
