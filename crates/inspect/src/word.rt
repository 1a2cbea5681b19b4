// The text of an inspected word.
ghost use Rattle.std.specs.Prelude.{◌≡◌, true, ◌++◌};
ghost use Rattle.slash.specs.Answers.{done};
ghost use Rattle.slash.specs.Formats.{known};
ghost use Rattle.slash.specs.Reading.{read_word};
ghost use Rattle.text.specs.Numbers.{line_feed};
ghost use Rattle.inspect.specs.Columns.{digit_count};
ghost use Rattle.inspect.specs.Steps.{Room, Added};
ghost use Rattle.inspect.specs.Words.{columns, inspected_text};

use crate::columns::{put_size, put_stored};
use crate::quotient::put_quotients;
use crate::store::{Text, put_refused, put_text};
use slash::{Format, Number};

// How many hexadecimal digits a word of a known format takes.
fn digit_count(f: Format) -> u64
    requires { known f ≡ true }
    ensures { result ≡ digit_count f }
{
    (f.width().unwrap() + 3) / 4
}

// The line of a word that says x.
fn put_columns(out: &mut Text, f: Format, w: u64, x: Number)
    requires { (read_word f w ≡ done x) × Room out.old.items (columns f w x ++ line_feed) }
    ensures { Added out.old.items (columns f w x ++ line_feed) out.new.items }
{
    let p = slash::parts_of(x.value);
    put_stored(out, digit_count(f), w, p, x.approximate);
    put_size(out, p.numerator, p.denominator);
    put_quotients(out, f, w);
    put_text(out, b"\n");
}

// The line of a word at a line of input: its columns, or its stop.
pub(crate) fn put_word(out: &mut Text, f: Format, line: u64, w: u64)
    requires { Room out.old.items (inspected_text f line w) }
    ensures { Added out.old.items (inspected_text f line w) out.new.items }
{
    match slash::read(f, w) {
        Ok(x) => put_columns(out, f, w, x),
        Err(stop) => put_refused(out, stop.number, line),
    }
}
