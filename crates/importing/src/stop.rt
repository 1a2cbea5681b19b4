// The numbers of the stops that records can cause, besides `Stop::LENGTH`. (Numbers, as `Stop` holds one.)

// A byte count not a multiple of 12.
pub(crate) const BYTES: u64 = 16;

// An unknown kind.
pub(crate) const KIND: u64 = 17;

// A number that breaks the rules.
pub(crate) const NUMBER: u64 = 18;
