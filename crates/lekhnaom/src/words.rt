// Calls on one word or two.

#![tactic(auto, unfolding(crate::specs::Status::behind))]

ghost use Rattle.std.specs.Prelude.{◌≡◌, ◌≤◌};
ghost use Rattle.slash.specs.Formats.{format_of};
ghost use Rattle.slash.specs.Answers.{WhenDone};
ghost use Rattle.slash.specs.Reading.{number_of};
ghost use Rattle.slash.specs.Writing.{write_number, exact_ratio};
ghost use Rattle.slash.specs.Best.{BestForRatio, BestForSize, BestForValue};
ghost use Rattle.arithmetic.specs.Operations.{binary_word};
ghost use Rattle.arithmetic.specs.Sizes.{binary_size};
ghost use Rattle.arithmetic.specs.Comparison.{order_number, comparison_outcome, compare_words};
ghost use Rattle.conversion.specs.Conversion.{convert_word};
ghost use Rattle.unary.specs.Operations.{exact_unary, unary_word};
ghost use Rattle.euclid.specs.Divisor.{gcd_word};
ghost use Rattle.euclid.specs.Quotients.{word_quotients, count_alone, quotient_count, quotients_after};
ghost use Rattle.twisting.specs.Twisting.{twist_word, untwist_word};
ghost use Rattle.lekhnaom.specs.Status.{status, behind};

use crate::status::store;
use arithmetic::Order;
use slash::{Format, Stop};

// n/d rounded into a format: the word. Stops 1, 6.
#[unsafe(no_mangle)]
pub extern "C" fn slash_round(kind: u64, k: u64, n: u64, d: u64, word: &mut u64) -> u64
    ensures returned { result ≡ status (write_number (format_of kind k) (exact_ratio n d)) }
    ensures stored { word.new ≡ behind (write_number (format_of kind k) (exact_ratio n d)) word.old }
    ensures best { WhenDone (write_number (format_of kind k) (exact_ratio n d)) (λ _. BestForRatio (format_of kind k) n d word.new) }
{
    store(slash::round_word(Format { kind, k }, n, d), word)
}

// A binary operation. Stops 1, 2, 4, 5.
#[unsafe(no_mangle)]
pub extern "C" fn slash_binary(
    kind: u64,
    k: u64,
    code: u64,
    left: u64,
    right: u64,
    word: &mut u64,
) -> u64
    ensures returned { result ≡ status (binary_word (format_of kind k) code left right) }
    ensures stored { word.new ≡ behind (binary_word (format_of kind k) code left right) word.old }
    ensures best { WhenDone (binary_word (format_of kind k) code left right) (λ _. BestForSize (format_of kind k) (binary_size code (number_of (format_of kind k) left).value (number_of (format_of kind k) right).value) word.new) }
{
    let f = Format { kind, k };
    store(arithmetic::binary(f, code, left, right), word)
}

// A unary operation. Stops 1, 2, 4, 5.
#[unsafe(no_mangle)]
pub extern "C" fn slash_unary(kind: u64, k: u64, code: u64, operand: u64, word: &mut u64) -> u64
    ensures returned { result ≡ status (unary_word (format_of kind k) code operand) }
    ensures stored { word.new ≡ behind (unary_word (format_of kind k) code operand) word.old }
    ensures best { WhenDone (unary_word (format_of kind k) code operand) (λ _. 3 ≤ code → BestForValue (format_of kind k) (exact_unary code (number_of (format_of kind k) operand).value) word.new) }
{
    let f = Format { kind, k };
    store(unary::unary(f, code, operand), word)
}

// An order, a number in C.
#[tactic(auto, unfolding(arithmetic::specs::Comparison::order_number))]
fn order_number(o: Order) -> u64
    ensures { result ≡ order_number o }
{
    match o {
        Order::Below => 0,
        Order::Equal => 1,
        Order::Above => 2,
        Order::Unordered => 3,
    }
}

fn order_answer(c: Result<Order, Stop>) -> Result<u64, Stop>
    ensures { result ≡ comparison_outcome c }
{
    Ok(order_number(c?))
}

// 0 below, 1 equal, 2 above, 3 unordered. Stops 1, 4, 5.
#[unsafe(no_mangle)]
pub extern "C" fn slash_compare(kind: u64, k: u64, left: u64, right: u64, order: &mut u64) -> u64
    ensures returned { result ≡ status (compare_words (format_of kind k) left right) }
    ensures stored { order.new ≡ behind (compare_words (format_of kind k) left right) order.old }
{
    let f = Format { kind, k };
    store(order_answer(arithmetic::compare(f, left, right)), order)
}

// The greatest common divisor of the stored parts. Stops 1, 4, 5.
#[unsafe(no_mangle)]
pub extern "C" fn slash_gcd(kind: u64, k: u64, operand: u64, divisor: &mut u64) -> u64
    ensures returned { result ≡ status (gcd_word (format_of kind k) operand) }
    ensures stored { divisor.new ≡ behind (gcd_word (format_of kind k) operand) divisor.old }
{
    let f = Format { kind, k };
    store(euclid::gcd(f, operand), divisor)
}

// A word as a word of another format. Stops 1, 4, 5.
#[unsafe(no_mangle)]
pub extern "C" fn slash_convert(
    kind: u64,
    k: u64,
    tokind: u64,
    tok: u64,
    operand: u64,
    word: &mut u64,
) -> u64
    ensures returned { result ≡ status (convert_word (format_of kind k) (format_of tokind tok) operand) }
    ensures stored { word.new ≡ behind (convert_word (format_of kind k) (format_of tokind tok) operand) word.old }
    ensures best { WhenDone (convert_word (format_of kind k) (format_of tokind tok) operand) (λ _. BestForValue (format_of tokind tok) (number_of (format_of kind k) operand).value word.new) }
{
    let source = Format { kind, k };
    let target = Format {
        kind: tokind,
        k: tok,
    };
    store(conversion::convert(source, target, operand), word)
}

// A plain floating word as the twisted one. Stops 1 (for a fixed format too), 4, 5.
#[unsafe(no_mangle)]
pub extern "C" fn slash_twist(kind: u64, k: u64, word: u64, twisted: &mut u64) -> u64
    ensures returned { result ≡ status (twist_word (format_of kind k) word) }
    ensures stored { twisted.new ≡ behind (twist_word (format_of kind k) word) twisted.old }
{
    let f = Format { kind, k };
    store(twisting::twist(f, word), twisted)
}

// A twisted word as the plain one. Stops 1 (for a fixed format too), 4, 5.
#[unsafe(no_mangle)]
pub extern "C" fn slash_untwist(kind: u64, k: u64, twisted: u64, word: &mut u64) -> u64
    ensures returned { result ≡ status (untwist_word (format_of kind k) twisted) }
    ensures stored { word.new ≡ behind (untwist_word (format_of kind k) twisted) word.old }
{
    let f = Format { kind, k };
    store(twisting::untwist(f, twisted), word)
}

// The partial quotients into a lent list, and their count. Stops 1, 4, 5, 7.
#[unsafe(no_mangle)]
pub extern "C" fn slash_quotients(
    kind: u64,
    k: u64,
    operand: u64,
    list: &mut [u32],
    count: &mut u64,
) -> u64
    ensures returned { result ≡ status (quotient_count (format_of kind k) operand list.old) }
    ensures stored { list.new ≡ quotients_after (word_quotients (format_of kind k) operand) list.old }
    ensures counted { count.new ≡ behind (quotient_count (format_of kind k) operand list.old) count.old }
{
    let f = Format { kind, k };
    store(euclid::quotients(f, operand, list), count)
}

// How many partial quotients a word has, with no list lent. Stops 1, 4, 5.
#[unsafe(no_mangle)]
pub extern "C" fn slash_quotient_count(kind: u64, k: u64, operand: u64, count: &mut u64) -> u64
    ensures returned { result ≡ status (count_alone (format_of kind k) operand) }
    ensures stored { count.new ≡ behind (count_alone (format_of kind k) operand) count.old }
{
    let f = Format { kind, k };
    store(euclid::quotient_count(f, operand), count)
}
