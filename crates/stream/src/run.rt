// One run: a recording read to its end or its first bad line, its listing written.
ghost use Rattle.std.specs.Prelude.{◌≡◌, ◌⊎◌, Ok, IfSome};
ghost use Rattle.std.specs.Io.KnownBytes.{Appends};
ghost use Rattle.listing.specs.Listing.{listing_of};
ghost use Rattle.text.specs.Lines.{refused_line};
ghost use Rattle.stream.specs.Runs.{Adds, run_outcome, Tells};

use crate::input;
use crate::report::report;
use listing::{End, Night};
use slash::Stop;
use std::io::{Read, Write};

// What cuts a listing: the line of a stop, which it ends with; or the recording couldn't be read, or
// the listing couldn't be written.
#[derive(Clone, Copy)]
pub enum Cut {
    Refused(Stop),
    Unread,
    Unwritten,
}

// Writes the line of a stop, and answers what cuts the listing.
fn refuse<W: Write>(to: &mut W, stop: Stop) -> Cut
    ensures ends { (result ≡ Cut.Refused stop) ⊎ (result ≡ Cut.Unwritten) }
    ensures written { result ≡ Cut.Refused stop → Appends (W.contents to.old) (W.contents to.new) (refused_line stop.number stop.place) }
{
    let mut line = [0; 50];
    let length = text::refused_line(stop, &mut line);
    if to.write_all(&line[..length]).is_ok() {
        return Cut::Refused(stop);
    }
    Cut::Unwritten
}

// Reads a recording to its end or its first bad line, and writes its listing, each breath as soon as
// its line feed has come. A turn that doesn't end it takes a line, or reads on where no line is whole,
// so that it ends. (The night is the recording's at each turn, proved, so that it is never none.)
// Where the reader tells its bytes and the writer its own, just the listing is added to these; what a
// failed write leaves there is open, and so is what is left of the reader.
pub fn list<R: Read, W: Write>(from: &mut R, to: &mut W) -> Result<(), Cut>
    ensures told { Tells (run_outcome result) }
    ensures written { IfSome (R.remaining from.old) (λ bytes. Adds result (listing_of bytes) (W.contents to.old) (W.contents to.new)) }
{
    // The first `filled` wait to be listed. (A vector of a fixed capacity lends no free place to read into.)
    let mut bytes = [0; 16384];
    // Where its room runs out, the next turn goes on.
    let mut text = [0; 32768];
    let mut night = Night::Begun;
    let mut filled = 0;
    let mut last = false;
    loop {
        let piece = listing::list_piece(night, &bytes[..filled], last, &mut text);
        if to.write_all(&text[..piece.length]).is_err() {
            return Err(Cut::Unwritten);
        }
        match piece.end {
            End::Open => {}
            End::Closed => return Ok(()),
            End::Refused(stop) => return Err(refuse(to, stop)),
            End::NoNight => return Err(Cut::Unread),
        }
        if 0 < piece.used {
            night = piece.night;
            filled = input::move_to_front(&mut bytes, piece.used, filled);
            continue;
        }
        let Ok(n) = input::read_more(from, &mut bytes, filled) else {
            return Err(Cut::Unread);
        };
        filled += n;
        last = n == 0;
    }
}

// The same, and what was refused or is cut is said in words: what the program `night` does.
pub fn night<R: Read, W: Write, E: Write>(
    from: &mut R,
    to: &mut W,
    errors: &mut E,
) -> Result<(), Cut>
    ensures told { Tells (run_outcome result) }
    ensures written { IfSome (R.remaining from.old) (λ bytes. Adds result (listing_of bytes) (W.contents to.old) (W.contents to.new)) }
    ensures silent { result ≡ Ok tt → errors.new ≡ errors.old }
{
    let run = list(from, to);
    report(run, errors);
    run
}
