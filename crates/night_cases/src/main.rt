// Runs requests from standard input, one a line, each with a recipe for bytes. The bytes are
// - a recording: its listing is written, or its length, checksum and end where it is long. It is listed
//   in small pieces too, which must make the same listing; of a recording with a stop only the pieces
//   and the line of the stop are. What is loaded from a listing must be printed as that listing.
// - a text to load: what comes of it is written, and the lists that it was loaded into. What is loaded
//   must be printed as that text.
// - words: their listing is written, or the stop.
// tests/second writes the requests and what the answers must be.

#![tactic(auto)]

mod heedless;
mod lent;
mod loads;
mod pieces;
mod prints;
mod recipe;
mod recordings;
mod show;

use heedless::Heedless;
use lent::Lent;
use recipe::{Asked, Recipe};
use std::io;
use std::io::{Read, Write};

// What a recipe asks for.
fn answer<W: Write>(out: &mut W, r: &mut Recipe, lent: &mut Lent) -> io::Result<()> {
    match r.asked {
        Asked::Listing => recordings::run(out, r, lent),
        Asked::Loading => loads::run(out, r.bytes(), r.numbers, r.words, lent),
        Asked::Printing => prints::run(out, r.bytes(), lent),
    }
}

// Takes a byte of a line; what stands from # on is a comment, and is written as it stands. What stands
// behind the last line feed asks for nothing.
fn take<W: Write>(out: &mut W, b: u8, r: &mut Recipe, lent: &mut Lent) -> io::Result<()> {
    match b {
        b'\n' => {
            if !r.is_comment() {
                r.end_piece();
                answer(out, r, lent)?;
            }
            r.begin(Asked::Listing);
            out.write_all(b"\n")
        }
        _ if b == b'#' || r.is_comment() => {
            r.begin_comment();
            out.write_all(&[b])
        }
        _ => {
            r.take(b);
            Ok(())
        }
    }
}

fn run<R: Read, W: Write>(from: &mut R, out: &mut W) -> io::Result<()> {
    let mut room = recipe::room();
    let mut listing = lent::listing();
    let mut numbers = lent::list();
    let mut words = lent::list();
    let mut lent = Lent {
        numbers: &mut numbers,
        words: &mut words,
        listing: &mut listing,
    };
    let mut recipe = Recipe::new(&mut room);
    let mut bytes = [0; 512];
    // No input takes so many reads.
    for _ in 0..u64::MAX {
        let n = from.read(&mut bytes)?;
        if n == 0 {
            break;
        }
        for &b in &bytes[..n] {
            take(out, b, &mut recipe, &mut lent)?;
        }
    }
    Ok(())
}

// Where a read fails, the run ends there.
fn main(rt: HostRuntime) {
    let _ = run(&mut rt.stdin(), &mut Heedless(rt.stdout()));
}
