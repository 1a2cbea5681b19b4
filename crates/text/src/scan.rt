// Where a byte stands in a text, and texts that are the same.
ghost use Rattle.std.specs.Prelude.{◌≡◌, ◌≤◌, ◌==◌, length, position};
ghost use Rattle.text.specs.Scan.{length_before, same};

// Where the first b stands.
fn first(bytes: &[u8], b: u8) -> Option<usize>
    ensures { result ≡ position (λ x. x == b) bytes.now }
{
    bytes.iter().position(|x| *x == b)
}

// How many bytes stand before the first b.
pub fn length_before(bytes: &[u8], b: u8) -> usize
    ensures within { result ≤ length bytes.now }
    ensures defined { result ≡ length_before b bytes.now }
{
    first(bytes, b).unwrap_or(bytes.len())
}

// Whether two texts are the same.
pub fn is_same(a: &[u8], b: &[u8]) -> bool
    ensures { result ≡ same a.now b.now }
{
    if a.len() != b.len() {
        return false;
    }
    // All bytes are compared, many at once: no text that is compared is long.
    let mut same = true;
    for (i, x) in a.iter().enumerate() {
        same = same & (*x == b[i]);
    }
    same
}
