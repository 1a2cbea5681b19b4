// A format that is known.
ghost use Rattle.std.specs.Prelude.{◌≡◌, true};
ghost use Rattle.slash.specs.Formats.{known};

use crate::format::Format;

// What rounding and writing take, behind the check of a caller's format.
#[derive(Clone, Copy)]
pub(crate) struct Known {
    pub(crate) format: Format,
    ghost is_known: { known format ≡ true },
}
