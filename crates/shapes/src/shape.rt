// The shape of a line.
ghost use Rattle.std.specs.Prelude.{◌≡◌};
ghost use Rattle.text.specs.Scan.{parted};
ghost use Rattle.shapes.specs.Fields.{in_two};
ghost use Rattle.shapes.specs.Shapes.{is_named, are_columns, shape_of};

use crate::field::{cut, is_decimal, is_fraction, is_whole};
use crate::word::read_word;
use text::is_same;

// How many bytes a line's name has, and its word.
#[derive(Clone, Copy)]
pub struct Said {
    pub name: usize,
    pub word: u64,
}

fn is_named(field: &[u8]) -> bool
    ensures { result ≡ is_named field.now }
{
    is_whole(field) || is_same(field, b"all")
}

fn are_columns(x: &[u8], y: &[u8]) -> bool
    ensures { result ≡ are_columns x.now y.now }
{
    (is_same(x, b"-") && is_same(y, b"-")) || (is_fraction(x) && is_decimal(y))
}

// Whether these bytes are the two columns behind a word, and no more.
fn are_last(bytes: &[u8]) -> bool
    ensures { result ≡ in_two are_columns (parted 9 bytes.now) }
{
    match cut(bytes, b'\t') {
        Some((x, y)) => cut(y, b'\t').is_none() && are_columns(x, y),
        None => false,
    }
}

// What a line says by its shape, its line feed not counted; none where it isn't so shaped. Each byte is
// looked at a few times, however long the fields are.
pub fn shape_of(line: &[u8]) -> Option<Said>
    ensures { result ≡ shape_of line.now }
{
    let (name, behind) = cut(line, b'\t')?;
    let (digits, last) = cut(behind, b'\t')?;
    let word = read_word(digits)?;
    if is_named(name) && are_last(last) {
        Some(Said {
            name: name.len(),
            word,
        })
    } else {
        None
    }
}
