// What is lent to the library: a list of numbers, one of words, and the array for a listing.
ghost use Rattle.std.specs.Prelude.{◌≡◌, ◌≤◌, length};

// How long the array for a listing is: the longest.
pub(crate) const ROOM: usize = 2162719;

// The places of a list that a text is loaded into: a few more than a listing has breaths, and so few
// that two lists have room on the stack beside the other arrays.
pub(crate) const PLACES: usize = 65540;

pub(crate) fn listing() -> [u8; ROOM]
    ensures { 2162719 ≡ length result }
{
    [0; ROOM]
}

pub(crate) fn list() -> [u64; PLACES]
    ensures { 65540 ≡ length result }
{
    [0; PLACES]
}

#[derive(Drop)]
pub(crate) struct Lent<'a> {
    pub(crate) numbers: &'a mut [u64; PLACES],
    pub(crate) words: &'a mut [u64; PLACES],
    pub(crate) listing: &'a mut [u8; ROOM],
}

// The first bytes of an array, so many, where it has them.
pub(crate) fn stored(array: &[u8], count: u64) -> &[u8]
    ensures { length result.now ≤ length array.now }
{
    &array[..array.len().min(count as usize)]
}
