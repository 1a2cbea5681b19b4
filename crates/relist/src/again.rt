// A listing loaded, and printed again.
ghost use Rattle.std.specs.Prelude.{◌≡◌};
ghost use Rattle.text.specs.Stores.{length_of, list_after};
ghost use Rattle.relist.specs.Again.{printed_again, SameAgain};

use slash::Stop;

// Stores the listing of the words that a text holds at the start of the lent array, and answers its
// length; or the stop of the text. Where it isn't refused, that is the text itself.
pub(crate) fn print_again(text: &[u8], listing: &mut [u8; 2162719]) -> Result<u64, Stop>
    ensures answered { result ≡ length_of (printed_again text.now) }
    ensures stored { listing.new ≡ list_after (printed_again text.now) listing.old }
    ensures same { SameAgain text.now }
{
    // A place for each breath that a listing can have.
    let mut numbers = [0; 65536];
    let mut words = [0; 65536];
    let c = loading::load_text(text, &mut numbers, &mut words)?;
    loading::print_words(&words[..c.breaths as usize], c.total, listing)
}
