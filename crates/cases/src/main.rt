// Runs requests from standard input, one a line, and writes an answer for each: a letter, then
// decimal numbers parted by single spaces. tests/second writes the requests and what the answers
// must be.

#![tactic(auto)]

mod heedless;
mod line;
mod operations;
mod places;
mod records;
mod requests;
mod show;
mod single;
mod ticks;
mod words;

use heedless::Heedless;
use line::Line;
use std::io;
use std::io::{Read, Write};

// Each answer is written as soon as its line is read; what stands behind the last line feed is no
// request.
fn run<R: Read, W: Write>(from: &mut R, out: &mut W) -> io::Result<()> {
    let mut bytes = [0; 512];
    let mut line = Line::new();
    // No input takes so many reads.
    for _ in 0..u64::MAX {
        let n = from.read(&mut bytes)?;
        if n == 0 {
            break;
        }
        for &b in &bytes[..n] {
            if b == b'\n' {
                line.end();
                requests::run(out, &line)?;
                out.write_all(b"\n")?;
                line.clear();
            } else {
                line.take(b);
            }
        }
    }
    Ok(())
}

// Where a read fails, the run ends there.
fn main(rt: HostRuntime) {
    let _ = run(&mut rt.stdin(), &mut Heedless(rt.stdout()));
}
