// A floating word twisted, and untwisted.
ghost use Rattle.std.specs.Prelude.{◌≡◌};
ghost use Rattle.twisting.specs.Twisting.{check_floating, rearrange, twist_word, untwist_word};
ghost use Rattle.twisting.specs.Steps.{way_of};

use crate::layout::{Layout, Way};
use slash::{Format, Stop};

// Stop 1 for a fixed format, whose words have no slash position, as for an unknown one.
pub(crate) fn check_floating(f: Format) -> Result<(), Stop>
    ensures { result ≡ check_floating f }
{
    if f.kind != Format::FLOATING {
        return Err(Stop::plain(Stop::FORMAT));
    }
    f.check()
}

// The word is checked here, by tests that need no more than the masks that rearranging needs too: above
// the field stand at most 4 * positions + 3, a sign, a mark and a slash position.
fn rearrange_word(way: Way, f: Format, w: u64) -> Result<u64, Stop>
    ensures { result ≡ rearrange (way_of way) f w }
{
    check_floating(f)?;
    let layout = Layout::new(f.k);
    let above = w >> (f.k - 1);
    if 4 * layout.positions + 3 < above {
        return Err(Stop::plain(Stop::WIDTH));
    }
    let e = layout.parting(above);
    if f.k - 2 < e {
        return Err(Stop::plain(Stop::SLASH));
    }
    Ok(layout.with_new_field(way, e, w))
}

// A plain word of a floating format as the twisted one.
#[tactic(auto, unfolding(crate::specs::Twisting::twist_word, crate::specs::Steps::way_of))]
pub fn twist(f: Format, w: u64) -> Result<u64, Stop>
    ensures { result ≡ twist_word f w }
{
    rearrange_word(Way::Twist, f, w)
}

// A twisted word as the plain one.
#[tactic(auto, unfolding(crate::specs::Twisting::untwist_word, crate::specs::Steps::way_of))]
pub fn untwist(f: Format, w: u64) -> Result<u64, Stop>
    ensures { result ≡ untwist_word f w }
{
    rearrange_word(Way::Untwist, f, w)
}
