// The requests by their letters.
use crate::line::Line;
use crate::{operations, places, records, single, ticks, words};
use breaths::Sums;
use slash::Format;
use std::io;
use std::io::Write;

// A request on words. The first number is the letter's place and says nothing.
fn run_words<W: Write>(out: &mut W, line: &Line) -> io::Result<()> {
    let [_, kind, k, a, b, c, d, e] = line.numbers;
    let f = Format { kind, k };
    let to = Format { kind: a, k: b };
    match line.letter {
        b'f' => words::format(out, kind, k),
        b'r' => words::read(out, f, a),
        b'w' => words::write(out, f, words::value(a, b == 1, c, d), e == 1),
        b'n' => words::round(out, f, a, b),
        b'b' => operations::binary(out, f, a, b, c),
        b'B' => operations::binary_all(out, f, a, b),
        b'o' => operations::compare(out, f, a, b),
        b'O' => operations::compare_all(out, f, a),
        b'v' => operations::convert(out, f, to, c),
        b'V' => operations::convert_all(out, f, to),
        b'u' => single::operation(out, f, a, b),
        b'U' => single::operation_all(out, f, a),
        b'g' => single::gcd(out, f, a),
        b'G' => single::gcd_all(out, f),
        b'q' => single::quotients(out, f, a, b),
        b'c' => single::quotient_count(out, f, a),
        b'C' => single::quotient_count_all(out, f),
        b't' => single::rearranged(out, f, a, b),
        b'T' => single::rearranged_all(out, f, a),
        b'h' => ticks::breath(out, kind, k, a, b),
        b'a' => {
            let sums = Sums {
                inspiration: k,
                whole: a,
            };
            ticks::added(out, kind, sums, b, c, d)
        }
        _ => write!(out, "unknown"),
    }
}

// A request on vectors, whose words, or bytes, are in the list of all numbers.
fn run_vectors<W: Write>(out: &mut W, line: &Line) -> io::Result<()> {
    let [_, kind, k, a, b, c, d, _] = line.numbers;
    let f = Format { kind, k };
    let to = Format { kind: a, k: b };
    let all = &line.all;
    match line.letter {
        b'x' => places::binary_each(out, f, a, [b, c, d], all),
        b'y' => places::unary_each(out, f, a, [b, c], all),
        b'z' => places::convert_each(out, f, to, [c, d], all),
        b'e' => places::rearranged_each(out, f, a, [b, c], all),
        b'i' => records::imported(out, [kind, k], all),
        _ => write!(out, "unknown"),
    }
}

// Runs the request of a line and writes its answer.
pub(crate) fn run<W: Write>(out: &mut W, line: &Line) -> io::Result<()> {
    match line.letter {
        b'e' | b'i' | b'x'.. => run_vectors(out, line),
        _ => run_words(out, line),
    }
}
