// Reads an input piece by piece into a lent buffer, and tells its end from a read that failed.
ghost use Rattle.std.specs.Prelude.{◌≡◌, ◌+◌, ◌-◌, ◌≤◌, ◌<◌, IfOk, length, take, drop};
ghost use Rattle.std.specs.Io.KnownBytes.{Consumes, IsAtEnd};
ghost use Rattle.io.specs.Counts.{IsPrefixLen};
ghost use Rattle.text.specs.Scan.{length_before};
ghost use Rattle.text.specs.Stores.{at_start};

use std::io::{self, Read};

// Reads what is there behind the bytes that the buffer has, and answers how many bytes it read: none
// of those is a line feed, so that no line waits for this read, and there is room for a byte more, so
// that no byte means the end. A pipe may hand over few bytes a read.
pub(crate) fn read_more<R: Read>(
    from: &mut R,
    buffer: &mut [u8],
    filled: usize,
) -> io::Result<usize>
    requires { (filled < length buffer.old) × (length_before 10 (take filled buffer.old) ≡ filled) }
    ensures counted { IfOk result (λ n. IsPrefixLen (filled + n) buffer.new) }
    ensures kept { take filled buffer.new ≡ take filled buffer.old }
    ensures consumed { IfOk result (λ n. Consumes (R.remaining from.old) (R.remaining from.new) (drop filled (take (filled + n) buffer.new))) }
    ensures ended { IfOk result (λ n. n ≡ 0 → IsAtEnd (R.remaining from.new)) }
{
    from.read(&mut buffer[filled..])
}

// Moves the bytes from one place of the buffer up to another to its front, and answers how many they
// are.
pub(crate) fn move_to_front(buffer: &mut [u8], from: usize, end: usize) -> usize
    requires { (from ≤ end) × (end ≤ length buffer.old) }
    ensures counted { result ≡ end - from }
    ensures moved { buffer.new ≡ at_start (take (end - from) (drop from buffer.old)) buffer.old }
{
    buffer.copy_within(from..end, 0);
    end - from
}
