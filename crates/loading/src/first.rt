// The line that a text begins with. In a file of its own, since definitions that the clauses beside its
// methods cite name it.
ghost use Rattle.std.specs.Prelude.{◌≡◌, ◌<◌, ◌≤◌, length};
ghost use Rattle.text.specs.Scan.{length_before};

// Its number, and where its line feed stands in the text.
#[derive(Clone, Copy)]
pub(crate) struct Line<'a> {
    pub(crate) text: &'a [u8],
    pub(crate) number: u32,
    pub(crate) end: usize,
    ghost ended: { end ≡ length_before 10 text.now },
    ghost within: { end < length text.now },
    ghost numbered: { 1 ≤ number },
}
