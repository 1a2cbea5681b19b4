// Lists a recording in small pieces.
use listing::{End, Night};
use std::io;
use std::io::Write;

// So many bytes more are handed over at each turn: lines are cut anywhere.
const AT_ONCE: usize = 45;

// Room for two lines, so that it runs out too.
const ROOM: usize = 70;

// Writes the pieces of a recording one behind the other, each listed into a room, and the line of its
// stop.
fn list_into<W: Write>(bytes: &[u8], room: &mut [u8], out: &mut W) -> io::Result<()> {
    let mut night = Night::Begun;
    let mut from = 0;
    let mut end = 0;
    // At most so many turns, since a program has to end.
    for _ in 0..1000000 {
        end += AT_ONCE.min(bytes.len() - end);
        let piece = listing::list_piece(night, &bytes[from..end], end == bytes.len(), room);
        out.write_all(&room[..piece.length])?;
        match piece.end {
            End::Open => {
                from += piece.used;
                night = piece.night;
            }
            End::Refused(stop) => {
                let mut line = [0u8; 50];
                let length = text::refused_line(stop, &mut line);
                return out.write_all(&line[..length]);
            }
            End::Closed | End::NoNight => return Ok(()),
        }
    }
    Ok(())
}

pub(crate) fn list<W: Write>(bytes: &[u8], out: &mut W) -> io::Result<()> {
    list_into(bytes, &mut [0; ROOM], out)
}

// A text that what is written must be: the rest of it that hasn't come, none behind what differs.
#[derive(Drop)]
struct Expected<'a>(Option<&'a [u8]>);

impl Write for Expected<'_> {
    fn write(&mut self, buf: &[u8]) -> io::Result<usize> {
        self.0 = match self.0 {
            Some(rest) => rest.strip_prefix(buf),
            None => None,
        };
        Ok(buf.len())
    }

    fn flush(&mut self) -> io::Result<()> {
        Ok(())
    }
}

// Whether the pieces of a recording, one behind the other, are this listing of it.
pub(crate) fn make(bytes: &[u8], listing: &[u8]) -> bool {
    let mut expected = Expected(Some(listing));
    list(bytes, &mut expected).is_ok() && matches!(expected.0, Some([]))
}
