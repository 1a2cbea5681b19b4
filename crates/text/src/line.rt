// The lines of a listing.
ghost use Rattle.std.specs.Prelude.{◌≡◌, true, ◌-◌, length};
ghost use Rattle.text.specs.Lines.{name_text, line_of, refused_line, is_name, line_in};
ghost use Rattle.text.specs.Steps.{Room};
ghost use Rattle.text.specs.Stores.{Stored, at_start};
ghost use Rattle.breaths.specs.Steps.{PrintableRatio};

use crate::columns::{is_printable, put_columns};
use crate::number::{put_byte, put_decimal, put_number, put_text};
use breaths::Ratio;
use slash::Stop;

// The longest line of a listing.
pub const LONGEST_LINE: usize = 33;

// The most breaths of a listing.
pub const MOST_BREATHS: u32 = 65536;

// What a line begins with: a breath's number, or `all`. No Option: `all` is a name too.
#[derive(Clone, Copy)]
pub enum Name {
    Number(u32),
    All,
}

fn is_name(name: Name) -> bool
    ensures { result ≡ is_name name }
{
    match name {
        Name::Number(n) => (1 <= n) & (n <= MOST_BREATHS),
        Name::All => true,
    }
}

fn put_name(out: &mut [u8], at: usize, name: Name) -> usize
    requires { (is_name name ≡ true) × Room out.old at (name_text name) }
    ensures { Stored out.old at (name_text name) out.new result }
{
    match name {
        Name::Number(n) => put_decimal(out, at, n),
        Name::All => put_text(out, at, b"all"),
    }
}

fn put_whole(out: &mut [u8], at: usize, name: Name, ratio: Ratio) -> usize
    requires { (is_name name ≡ true) × PrintableRatio ratio × Room out.old at (line_of name ratio) }
    ensures { Stored out.old at (line_of name ratio) out.new result }
{
    let tab = put_name(out, at, name);
    let columns = put_byte(out, tab, b'\t');
    let end = put_columns(out, columns, ratio);
    put_byte(out, end, b'\n')
}

// Stores a line from a place on, and answers the place behind it. Where the longest line has no
// room there, or no listing can have this line, it stores nothing and answers the place that it was
// given.
pub fn put_line(out: &mut [u8], at: usize, name: Name, ratio: Ratio) -> usize
    ensures { Stored out.old at (line_in (length out.old - at) name ratio) out.new result }
{
    if out.len() < at {
        return at;
    }
    if out.len() - at < LONGEST_LINE {
        return at;
    }
    if !is_name(name) {
        return at;
    }
    if !is_printable(ratio) {
        return at;
    }
    put_whole(out, at, name, ratio)
}

fn put_refused(out: &mut [u8], at: usize, stop: u64, line: u64) -> usize
    requires { Room out.old at (refused_line stop line) }
    ensures { Stored out.old at (refused_line stop line) out.new result }
{
    let number = put_text(out, at, b"refused\t");
    let tab = put_number(out, number, stop);
    let place = put_byte(out, tab, b'\t');
    let end = put_number(out, place, line);
    put_byte(out, end, b'\n')
}

// Stores the line that is printed for a stop at the start of the lent array, which holds the
// longest, and answers its length.
pub fn refused_line(stop: Stop, line: &mut [u8; 50]) -> usize
    ensures counted { result ≡ length (refused_line stop.number stop.place) }
    ensures stored { line.new ≡ at_start (refused_line stop.number stop.place) line.old }
{
    put_refused(line, 0, stop.number, stop.place)
}
