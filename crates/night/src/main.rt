// Reads a night's recording from standard input and prints its listing, each breath as soon as its
// line feed has come. A recording that is refused is told in words besides, where errors go.

#![tactic(auto)]

use std::env::FillError;
use std::rt::Env;

fn main(rt: HostRuntime) {
    // Only that an argument is there is asked: one that has no room is there too, and so is one that is no
    // text, which `env::args` would refuse.
    if !matches!(rt.arg(1, &mut [0; 1]), Err(FillError::NotPresent)) {
        let _ = eprintln!(rt; "usage: night < recording > listing");
        return;
    }
    let _ = stream::night(&mut rt.stdin(), &mut rt.stdout(), &mut rt.stderr());
}
