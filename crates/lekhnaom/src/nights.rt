// One breath's word, and the listing of a recording.

#![tactic(auto, unfolding(crate::specs::Status::behind))]

ghost use Rattle.std.specs.Prelude.{◌≡◌};
ghost use Rattle.slash.specs.Answers.{WhenDone};
ghost use Rattle.breaths.specs.Ratios.{ratio_of, BestRatio};
ghost use Rattle.breaths.specs.Breaths.{breath_of, breath_stored};
ghost use Rattle.text.specs.Stores.{length_of, list_after};
ghost use Rattle.listing.specs.Listing.{night_outcome, BestNight};
ghost use Rattle.lekhnaom.specs.Status.{status, behind};

use crate::status::store;

// The word of the breath between two onsets at a rate, 0 where it is void. Stop 19.
#[unsafe(no_mangle)]
pub extern "C" fn slash_breath(rate: u64, onset: u32, peak: u32, next: u32, word: &mut u64) -> u64
    ensures returned { result ≡ status (breath_stored rate onset peak next) }
    ensures stored { word.new ≡ behind (breath_stored rate onset peak next) word.old }
    ensures best { WhenDone (breath_stored rate onset peak next) (λ _. BestRatio (breath_of onset peak next).inspiration (breath_of onset peak next).whole (ratio_of word.new)) }
{
    store(breaths::stored_word(rate, onset, peak, next), word)
}

// The listing stands at the start of the lent array, and its length behind the pointer. Stops 8 to
// 11 and 19, at a line.
#[unsafe(no_mangle)]
pub extern "C" fn slash_night(
    recording: &[u8],
    listing: &mut [u8; 2162719],
    length: &mut u64,
) -> u64
    ensures returned { result ≡ status (length_of (night_outcome recording.now)) }
    ensures counted { length.new ≡ behind (length_of (night_outcome recording.now)) length.old }
    ensures stored { listing.new ≡ list_after (night_outcome recording.now) listing.old }
    ensures best { BestNight recording.now }
{
    store(listing::list(recording, listing), length)
}
