// A floating word twisted, or untwisted, at each place of a lent vector, the result in a lent vector.
ghost use Rattle.std.specs.Prelude.{◌≡◌, true, false, map, length};
ghost use Rattle.slash.specs.Formats.{known, is_fixed};
ghost use Rattle.vectors.specs.Checks.{checked_words};
ghost use Rattle.vectors.specs.Each.{vector_after, stop_only};
ghost use Rattle.twisting.specs.Twisting.{rearranged};
ghost use Rattle.twisting.specs.Each.{rearrange_each, twist_each, untwist_each};
ghost use Rattle.twisting.specs.Steps.{way_of, AllGood};

use crate::layout::{Layout, Way};
use crate::twisting::check_floating;
use slash::{Format, Stop};

// Whether all words are good, by one test at the end: numbers joined bit by bit are never below any of
// them, so that what is joined is too large where one word's is. No branch goes by a word, so that the
// compiler takes several at once. (Promised is that all are good where it says so, and not that it
// says so wherever they are: that would cost time and no answer.)
fn are_good(layout: Layout, operand: &[u64]) -> bool
    ensures { result ≡ true → AllGood layout.k operand.now }
{
    let mut above = 0;
    let mut next = 0;
    for w in operand {
        let a = *w >> (layout.k - 1);
        above |= a;
        next |= layout.raised_next(a);
    }
    (above <= 4 * layout.positions + 3) & (next <= layout.positions)
}

// What `vectors::check_words` tells, which is asked only where there may be a bad word: for its stop.
fn check_all(f: Format, layout: Layout, operand: &[u64]) -> Result<(), Stop>
    requires { (known f ≡ true) × (is_fixed f ≡ false) × (layout.k ≡ f.k) }
    ensures { result ≡ checked_words f operand.now }
{
    if are_good(layout, operand) {
        return Ok(());
    }
    vectors::check_words(f, operand)
}

// The words have been checked.
fn store_rearranged(way: Way, layout: Layout, operand: &[u64], out: &mut [u64])
    requires { length operand.now ≡ length out.old }
    ensures { out.new ≡ map (rearranged (way_of way) layout.k) operand.now }
{
    for (i, w) in operand.iter().enumerate() {
        out[i] = layout.rearranged_word(way, *w);
    }
}

fn rearrange_each(way: Way, f: Format, operand: &[u64], out: &mut [u64]) -> Result<(), Stop>
    ensures answered { result ≡ stop_only (rearrange_each (way_of way) f operand.now out.old) }
    ensures stored { out.new ≡ vector_after (rearrange_each (way_of way) f operand.now out.old) out.old }
{
    check_floating(f)?;
    if operand.len() != out.len() {
        return Err(Stop::plain(Stop::LENGTH));
    }
    let layout = Layout::new(f.k);
    check_all(f, layout, operand)?;
    store_rearranged(way, layout, operand, out);
    Ok(())
}

// `twist` at each place of operand.
#[tactic(auto, unfolding(crate::specs::Each::twist_each, crate::specs::Steps::way_of))]
pub fn twist_each(f: Format, operand: &[u64], out: &mut [u64]) -> Result<(), Stop>
    ensures answered { result ≡ stop_only (twist_each f operand.now out.old) }
    ensures stored { out.new ≡ vector_after (twist_each f operand.now out.old) out.old }
{
    rearrange_each(Way::Twist, f, operand, out)
}

// `untwist` at each place of operand.
#[tactic(auto, unfolding(crate::specs::Each::untwist_each, crate::specs::Steps::way_of))]
pub fn untwist_each(f: Format, operand: &[u64], out: &mut [u64]) -> Result<(), Stop>
    ensures answered { result ≡ stop_only (untwist_each f operand.now out.old) }
    ensures stored { out.new ≡ vector_after (untwist_each f operand.now out.old) out.old }
{
    rearrange_each(Way::Untwist, f, operand, out)
}
