// Two finite operands a/b and c/d, whose products across fit: their parts are as words have them.
ghost use Rattle.std.specs.Prelude.{◌*◌, ◌<◌, ◌^◌};

use slash::Parts;

#[derive(Clone, Copy)]
pub(crate) struct FinitePair {
    pub(crate) p: Parts,
    pub(crate) q: Parts,
    ghost ad: { p.numerator * q.denominator < 2 ^ 62 },
    ghost bc: { p.denominator * q.numerator < 2 ^ 62 },
    ghost ac: { p.numerator * q.numerator < 2 ^ 62 },
    ghost bd: { p.denominator * q.denominator < 2 ^ 62 },
}
