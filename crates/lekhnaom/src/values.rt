// Words taken apart and put together. What a word says is lent as five numbers in a row, a struct in
// C: sign, class, numerator, denominator, mark.
ghost use Rattle.std.specs.Prelude.{◌≡◌};
ghost use Rattle.slash.specs.Answers.{WhenDone};
ghost use Rattle.slash.specs.Formats.{format_of};
ghost use Rattle.slash.specs.Reading.{check_word};
ghost use Rattle.vectors.specs.Each.{vector_after};
ghost use Rattle.lekhnaom.specs.Status.{status, behind};
ghost use Rattle.lekhnaom.specs.Values.{class_of, numbers_of, read_numbers, value_from, number_at, write_told, BestForTold};

use crate::status::{status, stop_status, store};
use slash::{Format, Number, Parts, Stop, Value};

// The classes of values, numbers in C.
const FRACTION: u64 = 1;

const ZERO: u64 = 2;

const INFINITY: u64 = 3;

const NOT_A_NUMBER: u64 = 4;

// Whether a word is one of a format. Stops 1, 4, 5.
#[tactic(auto, unfolding(crate::specs::Status::status))]
#[unsafe(no_mangle)]
pub extern "C" fn slash_check(kind: u64, k: u64, word: u64) -> u64
    ensures { result ≡ status (check_word (format_of kind k) word) }
{
    status(slash::check(Format { kind, k }, word))
}

#[tactic(auto, unfolding(crate::specs::Values::class_of))]
fn class_of(v: Value) -> u64
    ensures { result ≡ class_of v }
{
    match v {
        Value::Fraction(_) => FRACTION,
        Value::Zero(_) => ZERO,
        Value::Infinity(_) => INFINITY,
        Value::NotANumber => NOT_A_NUMBER,
    }
}

// The five numbers of a value with its mark.
#[tactic(auto, unfolding(crate::specs::Values::numbers_of, slash::specs::Bits::bit_of))]
fn numbers_of(x: Number) -> [u64; 5]
    ensures { result ≡ numbers_of x }
{
    let p = slash::parts_of(x.value);
    [
        u64::from(p.negative),
        class_of(x.value),
        p.numerator,
        p.denominator,
        u64::from(x.approximate),
    ]
}

// What a word says. Stops 1, 4, 5.
#[tactic(auto, unfolding(crate::specs::Status::status, crate::specs::Values::read_numbers, vectors::specs::Each::vector_after))]
#[unsafe(no_mangle)]
pub extern "C" fn slash_read(kind: u64, k: u64, word: u64, value: &mut [u64; 5]) -> u64
    ensures returned { result ≡ status (read_numbers (format_of kind k) word) }
    ensures stored { value.new ≡ vector_after (read_numbers (format_of kind k) word) value.old }
{
    match slash::read(Format { kind, k }, word) {
        Ok(x) => {
            *value = numbers_of(x);
            0
        }
        Err(s) => stop_status(s),
    }
}

// The value of a sign, a class and parts. Stop 2.
#[tactic(auto, unfolding(crate::specs::Values::value_from))]
fn value_from(negative: bool, class: u64, n: u64, d: u64) -> Result<Value, Stop>
    ensures { result ≡ value_from negative class n d }
{
    match class {
        FRACTION => Ok(Value::Fraction(Parts {
            negative,
            numerator: n,
            denominator: d,
        })),
        ZERO => Ok(Value::Zero(negative)),
        INFINITY => Ok(Value::Infinity(negative)),
        NOT_A_NUMBER => Ok(Value::NotANumber),
        _ => Err(Stop::plain(Stop::CODE)),
    }
}

// What five numbers tell. Stop 2.
#[tactic(auto, unfolding(crate::specs::Values::number_at, crate::specs::Values::number_from))]
fn number_at(numbers: &[u64; 5]) -> Result<Number, Stop>
    ensures { result ≡ number_at numbers.now }
{
    let [sign, class, n, d, mark] = *numbers;
    if (1 < sign) | (1 < mark) {
        return Err(Stop::plain(Stop::CODE));
    }
    let value = value_from(sign == 1, class, n, d)?;
    Ok(Number {
        value,
        approximate: mark == 1,
    })
}

// The canonical word of what was told. Stops 1, what was told, 6.
#[tactic(auto, unfolding(crate::specs::Values::write_told, crate::specs::Values::BestForTold))]
fn write_told(f: Format, told: Result<Number, Stop>) -> Result<u64, Stop>
    ensures written { result ≡ write_told f told }
    ensures best { WhenDone result (λ w. BestForTold f told w) }
{
    f.check()?;
    slash::write(f, told?)
}

// The canonical word of a value. Stops 1, 2, 6.
#[tactic(auto, unfolding(crate::specs::Status::behind))]
#[unsafe(no_mangle)]
pub extern "C" fn slash_write(kind: u64, k: u64, value: &[u64; 5], word: &mut u64) -> u64
    ensures returned { result ≡ status (write_told (format_of kind k) (number_at value.now)) }
    ensures stored { word.new ≡ behind (write_told (format_of kind k) (number_at value.now)) word.old }
    ensures best { WhenDone (write_told (format_of kind k) (number_at value.now)) (λ _. BestForTold (format_of kind k) (number_at value.now) word.new) }
{
    store(write_told(Format { kind, k }, number_at(value)), word)
}
