// Lists recordings, whole and in pieces, and loads the listings.
use crate::lent::Lent;
use crate::recipe::Recipe;
use crate::{lent, loads, pieces, show};
use std::io;
use std::io::Write;

// The listing of a recording, whole, or in pieces where a stop refuses it. Pieces that don't make it
// are told, and a listing that isn't loaded, or whose words aren't printed as it stood.
pub(crate) fn run<W: Write>(out: &mut W, r: &mut Recipe, lent: &mut Lent) -> io::Result<()> {
    let Ok(length) = listing::list(r.bytes(), lent.listing) else {
        let mut rest = &mut lent.listing[..];
        let _ = pieces::list(r.bytes(), &mut rest);
        let left = rest.len();
        return show::listing(out, &lent.listing[..lent::ROOM - left.min(lent::ROOM)]);
    };
    let listing = lent::stored(&lent.listing[..], length);
    show::listing(out, listing)?;
    if !pieces::make(r.bytes(), listing) {
        writeln!(out, "THE PIECES DIFFER FROM THE LISTING")?;
    }
    // The recording isn't needed any more, so that its bytes make way for the listing.
    r.hold(listing);
    let count = listing.len();
    // What isn't printed again there is told.
    for b in lent.listing.iter_mut().take(count) {
        *b = 0;
    }
    if !loads::is_loaded(r.bytes(), lent) {
        writeln!(out, "loaded otherwise")?;
    }
    Ok(())
}
