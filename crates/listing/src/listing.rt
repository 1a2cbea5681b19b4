// The listing of a whole recording.
ghost use Rattle.std.specs.Prelude.{◌≡◌};
ghost use Rattle.text.specs.Stores.{length_of, list_after};
ghost use Rattle.listing.specs.Listing.{night_outcome, BestNight};

use crate::piece::put_first;
use recording::check;
use slash::Stop;

// Stores the listing of a recording at the start of the lent array, which holds the longest, and
// answers its length. A bad line stops it: the recording is read through before anything is stored.
pub fn list(recording: &[u8], listing: &mut [u8; 2162719]) -> Result<u64, Stop>
    ensures answered { result ≡ length_of (night_outcome recording.now) }
    ensures stored { listing.new ≡ list_after (night_outcome recording.now) listing.old }
    ensures best { BestNight recording.now }
{
    check(recording)?;
    Ok(put_first(recording, true, listing).length as u64)
}
