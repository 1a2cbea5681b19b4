// The partial quotients of a word's finite absolute value: their count alone, and they themselves in a
// lent list. No word's parts take more than 32 bits. (An iterator over the quotients would serve `store` and
// `are_more` alone, and take more lines than the division that both write.)
ghost use Rattle.std.specs.Prelude.{◌≡◌, ◌++◌, ◌≤◌, ltb, length, drop};
ghost use Rattle.slash.specs.Answers.{done, ◌then◌};
ghost use Rattle.euclid.specs.Quotients.{count_alone, count_in, stored_in, word_quotients, quotient_count, quotients_after};
ghost use Rattle.convergents.specs.Convergents.{quotients};

use slash::{Format, Stop};

// The parts n and d of a word, and how many quotients n/d has at most.
#[derive(Clone, Copy)]
struct WordParts {
    numerator: u32,
    denominator: u32,
    most: usize,
    ghost few: { length (quotients numerator denominator) ≤ most },
}

impl WordParts {
    // By a call of its own, either function took 2 ns longer.
    #[inline(always)]
    fn of_word(f: Format, w: u64) -> Result<WordParts, Stop>
        ensures { (result then λ p. done (quotients p.numerator p.denominator)) ≡ word_quotients f w }
    {
        let x = slash::check(f, w)?;
        let p = slash::parts_of(x.value());
        Ok(WordParts {
            numerator: p.numerator as u32,
            denominator: p.denominator as u32,
            // No word has more than 2k.
            most: (2 * f.k) as usize,
        })
    }

    // How many quotients n/d has, by Euclid's algorithm with the nearest rest: where more than half of
    // the divisor is left, the quotient that follows is 1, and one division counts both. The quotients 0
    // and 1 that may come first need none.
    fn count(self) -> usize
        ensures { result ≡ length (quotients self.numerator self.denominator) }
    {
        let (n, d) = (self.numerator, self.denominator);
        // Below 1 the first quotient is 0, and n is the rest.
        let (mut u, mut v, mut i) = if n < d { (d, n, 1) } else { (n, d, 0) };
        // Below 2 the next is 1, and is counted as in the loop.
        let over = u - v;
        if over < v {
            v = over;
            i += 1;
        }
        while v != 0 {
            let above = u % v;
            let below = v - above;
            u = v;
            if below < above {
                v = below;
                i += 2;
            } else {
                v = above;
                i += 1;
            }
        }
        i
    }

    // Stores the quotients, as they are found, at the start of a list that is long enough, and answers
    // their count.
    fn store(self, list: &mut [u32]) -> usize
        requires { length (quotients self.numerator self.denominator) ≤ length list.old }
        ensures counted { result ≡ length (quotients self.numerator self.denominator) }
        ensures stored { list.new ≡ quotients self.numerator self.denominator ++ drop (length (quotients self.numerator self.denominator)) list.old }
    {
        let (mut u, mut v) = (self.numerator, self.denominator);
        for (i, place) in list.iter_mut().enumerate() {
            if v == 0 {
                return i;
            }
            *place = u / v;
            (u, v) = (v, u % v);
        }
        list.len()
    }

    // Whether there are more quotients than places. Only where there may be, it divides, as `store` does
    // then: `count` has fewer divisions, but two loops that go round as often took less time.
    fn are_more(self, places: usize) -> bool
        ensures { result ≡ ltb places (length (quotients self.numerator self.denominator)) }
    {
        if self.most <= places {
            return false;
        }
        let (mut u, mut v) = (self.numerator, self.denominator);
        for _ in 0..places {
            if v == 0 {
                return false;
            }
            (u, v) = (v, u % v);
        }
        v != 0
    }

    // The quotients in a list, if it is long enough.
    fn list(self, list: &mut [u32]) -> Result<u64, Stop>
        ensures counted { result ≡ count_in list.old (quotients self.numerator self.denominator) }
        ensures stored { list.new ≡ stored_in list.old (quotients self.numerator self.denominator) }
    {
        if self.are_more(list.len()) {
            return Err(Stop::plain(Stop::LIST));
        }
        Ok(self.store(list) as u64)
    }
}

// How many quotients a word has.
pub fn quotient_count(f: Format, w: u64) -> Result<u64, Stop>
    ensures { result ≡ count_alone f w }
{
    let p = WordParts::of_word(f, w)?;
    Ok(p.count() as u64)
}

// The quotients of a word, first one first, at the start of the list, and their count.
pub fn quotients(f: Format, w: u64, list: &mut [u32]) -> Result<u64, Stop>
    ensures counted { result ≡ quotient_count f w list.old }
    ensures stored { list.new ≡ quotients_after (word_quotients f w) list.old }
{
    let p = WordParts::of_word(f, w)?;
    p.list(list)
}
