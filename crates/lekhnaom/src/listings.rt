// A listing read back.
ghost use Rattle.std.specs.Prelude.{◌≡◌, length};
ghost use Rattle.loading.specs.Loads.{Exactly};
ghost use Rattle.loading.specs.Fills.{count_of, load_into, numbers_after, words_after};
ghost use Rattle.lekhnaom.specs.Status.{status, behind, breaths_of, total_of};

use crate::status::stop_status;

// The breaths' numbers and words stand at the start of the lent lists, and their count and the
// total's word behind the pointers. Stops 13 to 15, at a line, and last 7.
#[tactic(auto, unfolding(crate::specs::Status::status, crate::specs::Status::behind, crate::specs::Status::breaths_of, crate::specs::Status::total_of))]
#[unsafe(no_mangle)]
pub extern "C" fn slash_load(
    text: &[u8],
    numbers: &mut [u64],
    words: &mut [u64],
    count: &mut u64,
    total: &mut u64,
) -> u64
    ensures returned { result ≡ status (count_of (load_into text.now (length numbers.old) (length words.old))) }
    ensures numbered { numbers.new ≡ numbers_after (load_into text.now (length numbers.old) (length words.old)) numbers.old }
    ensures worded { words.new ≡ words_after (load_into text.now (length numbers.old) (length words.old)) words.old }
    ensures counted { count.new ≡ behind (breaths_of (count_of (load_into text.now (length numbers.old) (length words.old)))) count.old }
    ensures totalled { total.new ≡ behind (total_of (count_of (load_into text.now (length numbers.old) (length words.old)))) total.old }
    ensures exactly { Exactly text.now }
{
    match loading::load_text(text, numbers, words) {
        Ok(c) => {
            *count = c.breaths;
            *total = c.total;
            0
        }
        Err(s) => stop_status(s),
    }
}
