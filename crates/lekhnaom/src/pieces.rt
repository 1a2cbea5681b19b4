// A night listed in pieces. Its state and what a piece came to are lent as numbers in a row, structs
// in C.
ghost use Rattle.std.specs.Prelude.{◌≡◌, length};
ghost use Rattle.std.specs.Option.{ok_or};
ghost use Rattle.text.specs.Stores.{list_after};
ghost use Rattle.vectors.specs.Each.{vector_after};
ghost use Rattle.lekhnaom.specs.Status.{status};
ghost use Rattle.lekhnaom.specs.Pieces.{state_of, night_at, piece_from, is_last, state_behind, text_of, numbers_behind, PiecesMakeListing, BestFrom};

use crate::status::stop_status;
use breaths::{Rate, Sums};
use listing::{End, Night, RatedNight};

// The stop of a state that no recording has, a number in C.
const NO_NIGHT: u64 = 255;

// The night that a state tells, if it tells one.
#[tactic(auto, unfolding(crate::specs::Pieces::night_at, crate::specs::Pieces::night_from, crate::specs::Pieces::rated_from))]
fn night_at(state: &[u64; 4]) -> Option<Night>
    ensures { ok_or result (record { number = 255; place = 0 }) ≡ night_at state.now }
{
    let [rate, breath, inspiration, whole] = *state;
    if (rate == 0) & ((breath == 0) & ((inspiration == 0) & (whole == 0))) {
        return Some(Night::Begun);
    }
    let breath = u32::try_from(breath).ok()?;
    let rate = Rate::make(rate).ok()?;
    Some(Night::Rated(RatedNight {
        rate,
        breath,
        sums: Sums { inspiration, whole },
    }))
}

// The four numbers of a night.
#[tactic(auto, unfolding(crate::specs::Pieces::state_of))]
fn state_of(night: Night) -> [u64; 4]
    ensures { result ≡ state_of night }
{
    match night {
        Night::Begun => [0; 4],
        Night::Rated(rated) => [
            rated.rate.per_second(),
            rated.breath as u64,
            rated.sums.inspiration,
            rated.sums.whole,
        ],
    }
}

// A piece of a night from a state on. Stops 8 to 11 and 19, at a line; and first 255.
#[tactic(auto, unfolding(crate::specs::Status::status, crate::specs::Pieces::piece_from, crate::specs::Pieces::told_by, crate::specs::Pieces::ended_of, crate::specs::Pieces::state_behind, crate::specs::Pieces::text_of, crate::specs::Pieces::numbers_behind, crate::specs::Pieces::piece_numbers, crate::specs::Pieces::PiecesMakeListing, crate::specs::Pieces::BestFrom, vectors::specs::Each::vector_after, text::specs::Stores::list_after, listing::specs::Pieces::answer_of))]
#[unsafe(no_mangle)]
pub extern "C" fn slash_night_piece(
    night: &mut [u64; 4],
    bytes: &[u8],
    last: u64,
    text: &mut [u8],
    piece: &mut [u64; 3],
) -> u64
    ensures returned { result ≡ status (piece_from (night_at night.old) bytes.now (is_last last) (length text.old)) }
    ensures kept { night.new ≡ vector_after (state_behind (piece_from (night_at night.old) bytes.now (is_last last) (length text.old))) night.old }
    ensures listed { text.new ≡ list_after (text_of (piece_from (night_at night.old) bytes.now (is_last last) (length text.old))) text.old }
    ensures told { piece.new ≡ vector_after (numbers_behind (piece_from (night_at night.old) bytes.now (is_last last) (length text.old))) piece.old }
    ensures listing { PiecesMakeListing (night_at night.old) bytes.now (is_last last) (length text.old) }
    ensures best { BestFrom (night_at night.old) bytes.now (is_last last) (length text.old) }
{
    let Some(from) = night_at(night) else {
        return NO_NIGHT;
    };
    let listed = listing::list_piece(from, bytes, last != 0, text);
    let ended = match listed.end {
        End::Open => 0,
        End::Closed => 1,
        End::Refused(stop) => return stop_status(stop),
        End::NoNight => return NO_NIGHT,
    };
    *night = state_of(listed.night);
    *piece = [listed.used as u64, listed.length as u64, ended];
    0
}
