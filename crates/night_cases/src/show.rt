// Writes answers: a listing, or what tells a long one, and what a call told.
use slash::Stop;
use std::io;
use std::io::Write;

pub(crate) fn stop<W: Write>(out: &mut W, stop: Stop) -> io::Result<()> {
    writeln!(out, "stop {} {}", stop.number, stop.place)
}

// A checksum with one number more: from 0, 31 times what came before, and the number, modulo 2^32.
pub(crate) fn summed(h: u64, n: u64) -> u64 {
    (h % 4294967296 * 31 + n % 4294967296) % 4294967296
}

// A listing; one of more than 2000 bytes by its length, its checksum and its last 64 bytes.
pub(crate) fn listing<W: Write>(out: &mut W, bytes: &[u8]) -> io::Result<()> {
    let length = bytes.len();
    if length <= 2000 {
        return out.write_all(bytes);
    }
    let checksum = bytes.iter().fold(0, |h, b| summed(h, u64::from(*b)));
    writeln!(out, "{length} {checksum}")?;
    out.write_all(&bytes[length - 64..])
}
