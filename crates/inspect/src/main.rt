// Reads formats and words from standard input, a line each, and prints what each word says, or the
// line of its stop.

#![tactic(auto)]

mod columns;
mod line;
mod quotient;
mod run;
mod said;
mod store;
mod word;

use std::env::FillError;
use std::rt::Env;

fn main(rt: HostRuntime) {
    // Only that an argument is there is asked: one that has no room is there too, and so is one that is no
    // text, which `env::args` would refuse.
    if !matches!(rt.arg(1, &mut [0; 1]), Err(FillError::NotPresent)) {
        let _ = eprintln!(rt;
            "usage: inspect < words (lines: fixed K or floating K, then words in hexadecimal)"
        );
        return;
    }
    if let Err(cut) = run::inspect(&mut rt.stdin(), &mut rt.stdout()) {
        let _ = eprintln!(rt; "inspect: {cut}");
    }
}
