// A word as eight hexadecimal digits.
ghost use Rattle.std.specs.Prelude.{◌≡◌};
ghost use Rattle.shapes.specs.Words.{hex_read, word_read};

// The value of a hexadecimal digit; of any other byte none.
fn hex_value(b: u8) -> Option<u64>
    ensures { result ≡ hex_read b }
{
    match b {
        b'0'..=b'9' => Some((b - b'0') as u64),
        b'a'..=b'f' => Some((b - b'a' + 10) as u64),
        _ => None,
    }
}

// The word of a field of eight lowercase hexadecimal digits; of any other field none.
pub fn read_word(field: &[u8]) -> Option<u64>
    ensures { result ≡ word_read field.now }
{
    if field.len() != 8 {
        return None;
    }
    let mut value: u64 = 0;
    for b in field {
        value = value * 16 + hex_value(*b)?;
    }
    Some(value)
}
