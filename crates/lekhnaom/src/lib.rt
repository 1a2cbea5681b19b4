// The library for callers in C and other languages: each function by its plain name, over the
// proved ones. It returns 0, or the number and place of a stop; results go behind pointers and into
// lent memory, which a stop leaves as it was. A format is a kind and a k, and codes, classes and
// orders are numbers, as C has them (include/slash.h). Functions that differ in the call alone that they make
// stay apart, since C has a name for each.

#![tactic(auto)]

mod formats;
mod listings;
mod nights;
mod pieces;
mod places;
mod status;
mod timings;
mod values;
mod words;
