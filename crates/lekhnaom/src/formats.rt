// What a format says of its words.
ghost use Rattle.std.specs.Prelude.{◌≡◌};
ghost use Rattle.slash.specs.Formats.{format_of, of_known, width_of, largest_part};
ghost use Rattle.lekhnaom.specs.Status.{status, behind};

use crate::status::store;
use slash::Format;

// How many bits a word has. Stop 1.
#[unsafe(no_mangle)]
pub extern "C" fn slash_width(kind: u64, k: u64, width: &mut u64) -> u64
    ensures returned { result ≡ status (of_known (format_of kind k) (width_of (format_of kind k))) }
    ensures stored { width.new ≡ behind (of_known (format_of kind k) (width_of (format_of kind k))) width.old }
{
    let f = Format { kind, k };
    store(f.width(), width)
}

// The largest numerator, and denominator, of a fraction that it holds. Stop 1.
#[unsafe(no_mangle)]
pub extern "C" fn slash_largest(kind: u64, k: u64, largest: &mut u64) -> u64
    ensures returned { result ≡ status (of_known (format_of kind k) (largest_part (format_of kind k))) }
    ensures stored { largest.new ≡ behind (of_known (format_of kind k) (largest_part (format_of kind k))) largest.old }
{
    let f = Format { kind, k };
    store(f.largest_numerator(), largest)
}
