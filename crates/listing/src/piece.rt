// The listing of a recording in pieces, as its bytes come.
ghost use Rattle.std.specs.Prelude.{◌≡◌, true, ◌+◌, ◌^◌, ◌<◌, length};
ghost use Rattle.slash.specs.Answers.{Stops};
ghost use Rattle.text.specs.Stores.{at_start};
ghost use Rattle.listing.specs.Nights.{is_rated};
ghost use Rattle.listing.specs.Steps.{behind_rate};
ghost use Rattle.listing.specs.Pieces.{end_outcome, is_sure, left_to_next, piece_of, answer_of, MakesListing, BestPiece};

use crate::night::{Night, RatedNight, is_rated, with_line};
use breaths::Ratio;
use recording::{first_line, next_breath};
use slash::Stop;
use text::{Name, length_before, put_line};

// How a piece ends: the listing goes on; it is whole; a line was refused; or the night was none of a
// recording. No Result: a piece that a bad line ends has used and stored bytes too.
#[derive(Clone, Copy)]
pub enum End {
    Open,
    Closed,
    Refused(Stop),
    NoNight,
}

// What was listed: how many bytes of the recording it used, how many bytes of text it stored, the
// night behind it, and whether it is the end.
#[derive(Clone, Copy)]
pub struct Piece {
    pub used: usize,
    pub length: usize,
    pub night: Night,
    pub end: End,
}

// Whether nothing that follows changes the next line, and there is room for it.
fn is_sure(bytes: &[u8], last: bool, room: usize) -> bool
    ensures { result ≡ is_sure bytes.now last room }
{
    if room < text::LONGEST_LINE {
        return false;
    }
    if last {
        return true;
    }
    if recording::LONGEST_LINE <= bytes.len() {
        return true;
    }
    length_before(bytes, b'\n') < bytes.len()
}

// A stop behind bytes that a piece used is left to the next piece, and this one is open.
fn left_to_next(used: usize, end: End) -> End
    ensures { result ≡ left_to_next used end }
{
    if used == 0 {
        return end;
    }
    match end {
        End::Closed => End::Closed,
        _ => End::Open,
    }
}

// Stores the lines of a night's next breaths, each as it is read, while they are sure and have room. (`from`
// goes on by hand, since it is also what the piece used.)
fn put_lines(night: RatedNight, bytes: &[u8], last: bool, out: &mut [u8]) -> Piece
    requires { is_rated night ≡ true }
    ensures answered { result ≡ answer_of (piece_of (Night.Rated night) bytes.now last (length out.old)) }
    ensures stored { out.new ≡ at_start (piece_of (Night.Rated night) bytes.now last (length out.old)).text out.old }
{
    let mut at = 0;
    let mut from = 0;
    let mut next = night;
    while is_sure(&bytes[from..], last, out.len() - at) {
        match next_breath(next.breath, &bytes[from..]) {
            Ok(Some(entry)) => {
                let b = entry.breath;
                at = put_line(out, at, Name::Number(next.breath), b.ratio(next.rate));
                next = with_line(next, b);
                from += entry.used;
            }
            Ok(None) => {
                return Piece {
                    used: from,
                    length: put_line(out, at, Name::All, next.sums.ratio()),
                    night: Night::Rated(next),
                    end: End::Closed,
                };
            }
            Err(stop) => {
                return Piece {
                    used: from,
                    length: at,
                    night: Night::Rated(next),
                    end: left_to_next(from, End::Refused(stop)),
                };
            }
        }
    }
    Piece {
        used: from,
        length: at,
        night: Night::Rated(next),
        end: End::Open,
    }
}

// A piece of what stands behind a rate line, which used so many bytes, as one of both.
fn behind_rate(used: usize, piece: Piece) -> Piece
    requires { used + piece.used < 2 ^ 64 }
    ensures { result ≡ behind_rate used piece }
{
    Piece {
        used: used + piece.used,
        end: left_to_next(used, piece.end),
        ..piece
    }
}

// Stores the first lines of a night: those that its rate line opens, or the one line of a recording
// without a byte.
pub(crate) fn put_first(bytes: &[u8], last: bool, out: &mut [u8]) -> Piece
    ensures answered { result ≡ answer_of (piece_of Night.Begun bytes.now last (length out.old)) }
    ensures stored { out.new ≡ at_start (piece_of Night.Begun bytes.now last (length out.old)).text out.old }
{
    if !is_sure(bytes, last, out.len()) {
        return Piece {
            used: 0,
            length: 0,
            night: Night::Begun,
            end: End::Open,
        };
    }
    match first_line(bytes) {
        Ok(Some(opening)) => {
            let used = opening.used;
            let night = RatedNight::opened(opening.rate);
            behind_rate(used, put_lines(night, &bytes[used..], last, out))
        }
        Ok(None) => Piece {
            used: 0,
            length: put_line(out, 0, Name::All, Ratio::Void),
            night: Night::Begun,
            end: End::Closed,
        },
        Err(stop) => Piece {
            used: 0,
            length: 0,
            night: Night::Begun,
            end: End::Refused(stop),
        },
    }
}

// Stores at the start of the lent list as many lines from a night on as are sure and have room.
// `last` says that nothing follows these bytes of the recording. Where the answer is Open, the
// listing goes on with its night and the bytes that it didn't use, and what follows them. A bad line
// is refused by the piece that begins with it, which stores nothing; the pieces before it are open.
pub fn list_piece(night: Night, bytes: &[u8], last: bool, out: &mut [u8]) -> Piece
    ensures answered { result ≡ answer_of (piece_of night bytes.now last (length out.old)) }
    ensures stored { out.new ≡ at_start (piece_of night bytes.now last (length out.old)).text out.old }
    ensures untouched { Stops (end_outcome result.end) → out.new ≡ out.old }
    ensures listing { MakesListing night bytes.now last (length out.old) }
    ensures best { BestPiece night bytes.now (piece_of night bytes.now last (length out.old)) }
    ensures ended { end_outcome result.end ≡ end_outcome (piece_of night bytes.now last (length out.old)).end }
{
    let Night::Rated(next) = night else {
        return put_first(bytes, last, out);
    };
    if !is_rated(next) {
        return Piece {
            used: 0,
            length: 0,
            night: Night::Rated(next),
            end: End::NoNight,
        };
    }
    put_lines(next, bytes, last, out)
}
