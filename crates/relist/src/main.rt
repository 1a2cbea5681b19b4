// Reads a listing from standard input and prints the listing of the words that it holds, or the line
// of its stop.

#![tactic(auto)]

mod again;

ghost use Rattle.std.specs.Prelude.{◌≡◌, ◌≤◌, length};

use std::io::{self, Read, Write};

// Room for what is read: nearly half as much again as the longest listing has. The first bad line of a
// text that is longer stands in it, unless that line alone runs on behind it, and then 13 is told, as of
// a line that isn't ended. (In a function of its own, whose proof says how long it is by a law: in `main`
// the check counts so many zeros, and stops at its limit.)
fn text_buffer() -> [u8; 3145728]
    ensures { 3145728 ≡ length result }
{
    [0; 3145728]
}

// Reads until there is no room left or the input ends, which a read that fails passes for, and answers
// how many bytes it read.
fn read_text<R: Read>(input: &mut R, text: &mut [u8]) -> usize
    ensures { result ≤ length text.new }
{
    let mut length = 0;
    while length < text.len() {
        let n = input.read(&mut text[length..]).unwrap_or(0);
        if n == 0 {
            break;
        }
        length += n;
    }
    length
}

// Whether the input goes on behind what was read of it. Where room was left it has ended, or a read
// failed: one read more tells which.
fn is_cut<R: Read>(input: &mut R, is_full: bool) -> bool {
    match input.read(&mut [0; 1]) {
        Ok(n) => 0 < n && !is_full,
        Err(_) => true,
    }
}

// Writes the listing of the words that a text holds, or the line of its stop.
fn relist<W: Write>(text: &[u8], output: &mut W) -> io::Result<()> {
    let mut listing = [0; 2162719];
    match again::print_again(text, &mut listing) {
        Ok(length) => output.write_all(&listing[..length as usize]),
        Err(stop) => {
            let mut line = [0; 50];
            let length = text::refused_line(stop, &mut line);
            output.write_all(&line[..length])
        }
    }
}

fn main(rt: HostRuntime) {
    let mut text = text_buffer();
    let mut input = rt.stdin();
    let length = read_text(&mut input, &mut text);
    if is_cut(&mut input, length == text.len()) {
        let _ = eprintln!(rt; "the listing cannot be read");
        return;
    }
    if relist(&text[..length], &mut rt.stdout()).is_err() {
        let _ = eprintln!(rt; "the listing cannot be written");
    }
}
