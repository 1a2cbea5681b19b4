// The fields of a line.
ghost use Rattle.std.specs.Prelude.{◌≡◌, [], ◌∷◌, MatchOption};
ghost use Rattle.std.specs.List.{list_all};
ghost use Rattle.text.specs.Scan.{is_digit, parted};
ghost use Rattle.shapes.specs.Fields.{is_whole, is_place, is_fraction, is_decimal};

use text::length_before;

// What stands before the first b and what stands behind it; none where there is no b.
pub(crate) fn cut(bytes: &[u8], b: u8) -> Option<(&[u8], &[u8])>
    ensures { MatchOption result (parted b bytes.now ≡ bytes.now ∷ []) (λ p. parted b bytes.now ≡ p.0.now ∷ parted b p.1.now) }
{
    let i = length_before(bytes, b);
    if i == bytes.len() {
        return None;
    }
    Some((&bytes[..i], &bytes[i + 1..]))
}

fn are_digits(bytes: &[u8]) -> bool
    ensures { result ≡ list_all is_digit bytes.now }
{
    bytes.iter().all(u8::is_ascii_digit)
}

pub(crate) fn is_whole(field: &[u8]) -> bool
    ensures { result ≡ is_whole field.now }
{
    if field.is_empty() {
        return false;
    }
    if field[0] == b'0' {
        return field.len() == 1;
    }
    are_digits(field)
}

fn is_place(field: &[u8]) -> bool
    ensures { result ≡ is_place field.now }
{
    field.len() == 1 && are_digits(field)
}

// No second slash need be looked for: a whole number has none. (It and `is_decimal` differ in the byte and in
// what follows it, which is all that either says.)
pub(crate) fn is_fraction(field: &[u8]) -> bool
    ensures { result ≡ is_fraction field.now }
{
    match cut(field, b'/') {
        Some((x, y)) => is_whole(x) && is_whole(y),
        None => false,
    }
}

pub(crate) fn is_decimal(field: &[u8]) -> bool
    ensures { result ≡ is_decimal field.now }
{
    match cut(field, b'.') {
        Some((x, y)) => is_whole(x) && is_place(y),
        None => false,
    }
}
