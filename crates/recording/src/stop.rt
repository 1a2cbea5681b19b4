// The numbers of the stops that a recording can cause, but 19, which is `Rate::REFUSED`. (Numbers, as
// `Stop` holds one.)

// Breath 65,537 begins.
pub(crate) const BREATHS: u64 = 8;

// Over 32 bytes before the line feed, or no line feed.
pub(crate) const LONG: u64 = 9;

// Not three fields.
pub(crate) const FIELDS: u64 = 10;

// A field is not a tick mark.
pub(crate) const TICK: u64 = 11;
