// The layout of a floating word, and what the two ways between the layouts make of a word's field.
ghost use Rattle.std.specs.Prelude.{◌≡◌, ◌+◌, ◌-◌, ◌≤◌, ◌<◌, ◌^◌};
ghost use Rattle.std.specs.Int.Bits.{bit_and};
ghost use Rattle.slash.specs.Bits.{bits};
ghost use Rattle.slash.specs.Formats.{slash_bits};
ghost use Rattle.twisting.specs.Twisting.{turned, twisted_field, untwisted_field, with_field, rearranged};
ghost use Rattle.twisting.specs.Steps.{way_of, parting_at, raised_next};

// The two ways between the layouts.
#[derive(Clone, Copy)]
pub(crate) enum Way {
    Twist,
    Untwist,
}

// How the bits of a word are laid out: a field of k - 1 bits, all of which are set in ones, and above
// it a slash position, all of whose bits are set in positions: L of them, as many as k - 1 takes.
#[derive(Clone, Copy)]
pub(crate) struct Layout {
    pub(crate) k: u64,
    ones: u64,
    pub(crate) positions: u64,
    ghost least: { 2 ≤ k },
    ghost most: { k ≤ 32 },
    ghost field_set: { ones ≡ 2 ^ (k - 1) - 1 },
    ghost position_set: { positions ≡ 2 ^ slash_bits k - 1 },
}

impl Layout {
    pub(crate) fn new(k: u64) -> Layout
        requires { (2 ≤ k) × (k ≤ 32) }
        ensures { result.k ≡ k }
    {
        Layout {
            k,
            ones: (1 << (k - 1)) - 1,
            positions: u64::MAX >> u64::leading_zeros(k - 1),
        }
    }

    // The k - 1 bits of a field the other way round.
    fn turned_field(self, x: u64) -> u64
        requires { x < 2 ^ (self.k - 1) }
        ensures { result ≡ turned (self.k - 1) x }
    {
        ((x as u32).reverse_bits() >> (33 - self.k)) as u64
    }

    // The denominator's bits are the lowest e of the field f; of the turned field they are the leftmost
    // e.
    fn twisted_field(self, e: u64, f: u64, t: u64) -> u64
        requires { (e + 2 ≤ self.k) × (f < 2 ^ (self.k - 1)) × (t ≡ turned (self.k - 1) f) }
        ensures { result ≡ twisted_field self.k e f }
    {
        (t & (self.ones - (self.ones >> e))) + (f >> e)
    }

    // And back: they are the leftmost e of the twisted field f; of the turned field they are the lowest
    // e.
    fn untwisted_field(self, e: u64, f: u64, t: u64) -> u64
        requires { (e + 2 ≤ self.k) × (f < 2 ^ (self.k - 1)) × (t ≡ turned (self.k - 1) f) }
        ensures { result ≡ untwisted_field self.k e f }
    {
        ((f << e) & self.ones) + (t & ((1 << e) - 1))
    }

    // A word with the field that a way makes at the slash position e. The field is turned as a whole,
    // which is the same for both ways and needn't wait for e.
    pub(crate) fn with_new_field(self, way: Way, e: u64, w: u64) -> u64
        requires { e + 2 ≤ self.k }
        ensures { result ≡ with_field self.k w (way_of way self.k e (bits 0 (self.k - 1) w)) }
    {
        let f = w & self.ones;
        let t = self.turned_field(f);
        match way {
            Way::Twist => w - f + self.twisted_field(e, f, t),
            Way::Untwist => w - f + self.untwisted_field(e, f, t),
        }
    }

    // A word rearranged; where its slash position is none of a fraction's, it stays.
    pub(crate) fn rearranged_word(self, way: Way, w: u64) -> u64
        ensures { result ≡ rearranged (way_of way) self.k w }
    {
        let e = (w >> (self.k - 1)) & self.positions;
        if self.k - 1 <= e {
            return w;
        }
        self.with_new_field(way, e, w)
    }

    // Where a way takes a field apart: at the word's slash position, but at 0 where that is the last, so
    // that the field of an infinity or a not-a-number stays. A choice is faster than a branch by the
    // word. above is a word without its field.
    #[tactic(auto, unfolding(crate::specs::Steps::parting_at))]
    pub(crate) fn parting(self, above: u64) -> u64
        ensures { result ≡ parting_at self.positions (bit_and above self.positions) }
    {
        let p = above & self.positions;
        if p == self.positions { 0 } else { p }
    }

    // A slash position is defined just where the one after it is below k, counted round: after the last
    // comes 0. Raised by what k lies below 2^L, that is at most the last just then.
    pub(crate) fn raised_next(self, above: u64) -> u64
        ensures { result ≡ raised_next self.k above }
    {
        (((above & self.positions) + 1) & self.positions) + (self.positions + 1 - self.k)
    }
}
