// A line of the input, taken byte by byte: whatever stands in it is a request.

// Its letter, its first numbers, how many have ended, and the number that has begun. All its numbers
// are in a list besides, where those of the lines before it stay behind them.
#[derive(Clone, Copy)]
pub(crate) struct Line {
    pub(crate) letter: u8,
    pub(crate) numbers: [u64; 8],
    pub(crate) all: [u64; 256],
    ended: usize,
    digits: u64,
}

impl Line {
    pub(crate) fn new() -> Line {
        Line {
            letter: 0,
            numbers: [0; 8],
            all: [0; 256],
            ended: 0,
            digits: 0,
        }
    }

    // The line with one byte more.
    pub(crate) fn take(&mut self, b: u8) {
        match b {
            // The space behind the letter ends no number.
            b' ' if self.ended == 0 => self.ended = 1,
            b' ' => self.end(),
            b'0'..=b'9' => {
                // 2^64 - 1 is 1844674407370955161 times 10 and 5.
                let tens = self.digits % 1844674407370955162 * 10;
                self.digits = tens.wrapping_add((b - b'0') as u64);
            }
            _ => self.letter = b,
        }
    }

    // The number that has begun goes behind the others, where there is room.
    pub(crate) fn end(&mut self) {
        let at = self.ended;
        if at < self.numbers.len() {
            self.numbers[at] = self.digits;
        }
        if at < self.all.len() {
            self.all[at] = self.digits;
            self.ended = at + 1;
        }
        self.digits = 0;
    }

    // The line before its first byte; the list of all numbers stays.
    pub(crate) fn clear(&mut self) {
        self.letter = 0;
        self.numbers = [0; 8];
        self.ended = 0;
        self.digits = 0;
    }
}
