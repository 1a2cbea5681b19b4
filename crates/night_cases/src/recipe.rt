// A line of the input, which asks for something of the bytes that a recipe makes:
//   <recipe>                             the listing of a recording
//   L<numbers>:<words>:<recipe>          a text loaded into lists of so many places
//   M<voids>:<numbers>:<words>:<recipe>  so too, with the lines of so many void breaths before it
//   P<recipe>                            the listing of words
// A recipe is pieces parted by one space, each a count, a star and the bytes to repeat, two
// hexadecimal digits a byte. No piece is the empty recipe.
ghost use Rattle.std.specs.Prelude.{◌≡◌, length};

// No recipe makes more bytes; what has no room is left out.
const ROOM: usize = 2300000;

// Room for the bytes. (In a function of its own, whose proof says how long it is by a law: where it is
// used the check counts so many zeros.)
pub(crate) fn room() -> [u8; ROOM]
    ensures { 2300000 ≡ length result }
{
    [0; ROOM]
}

// What is asked for: any letter but P asks for a loading.
#[derive(Clone, Copy)]
pub(crate) enum Asked {
    Listing,
    Loading,
    Printing,
}

// What the next byte of a line is: a digit of a count or of a number, the first or the second
// hexadecimal digit of a byte, or part of a comment.
#[derive(Clone, Copy)]
enum Stage {
    Count,
    First,
    Second,
    Comment,
}

// What is asked, the void breaths whose lines begin the bytes, and the places of the lists of numbers
// and of words that a text is loaded into; then how often the piece that has begun is to stand, where
// it starts among the bytes, where they end so far, and the first hexadecimal digit of a byte.
#[derive(Drop)]
pub(crate) struct Recipe<'a> {
    pub(crate) asked: Asked,
    voids: usize,
    pub(crate) numbers: usize,
    pub(crate) words: usize,
    stage: Stage,
    count: usize,
    start: usize,
    end: usize,
    bytes: &'a mut [u8; ROOM],
    high: u8,
}

// The value of a digit, decimal or hexadecimal.
fn digit(b: u8) -> u8 {
    let zero = if b < b'a' { b'0' } else { 87 };
    b.wrapping_sub(zero) % 16
}

impl<'a> Recipe<'a> {
    pub(crate) fn new(bytes: &'a mut [u8; ROOM]) -> Recipe<'a> {
        Recipe {
            asked: Asked::Listing,
            voids: 0,
            numbers: 0,
            words: 0,
            stage: Stage::Count,
            count: 0,
            start: 0,
            end: 0,
            bytes,
            high: 0,
        }
    }

    // The bytes so far.
    pub(crate) fn bytes(&self) -> &[u8] {
        &self.bytes[..self.end.min(ROOM)]
    }

    pub(crate) fn is_comment(&self) -> bool {
        matches!(self.stage, Stage::Comment)
    }

    pub(crate) fn begin_comment(&mut self) {
        self.stage = Stage::Comment;
    }

    // The recipe with one byte more of its line.
    pub(crate) fn take(&mut self, b: u8) {
        match b {
            b' ' => self.end_piece(),
            b':' => self.end_number(),
            b'*' => self.stage = Stage::First,
            b'P' => self.begin(Asked::Printing),
            b'A'..=b'Z' => self.begin(Asked::Loading),
            _ => self.take_digit(digit(b)),
        }
    }

    // A recipe for what is asked, of which nothing else is read.
    pub(crate) fn begin(&mut self, asked: Asked) {
        self.asked = asked;
        self.voids = 0;
        self.numbers = 0;
        self.words = 0;
        self.end = 0;
        self.begin_piece();
    }

    fn begin_piece(&mut self) {
        self.stage = Stage::Count;
        self.count = 0;
        self.start = self.end;
    }

    // One digit more of its count or of its bytes.
    fn take_digit(&mut self, digit: u8) {
        match self.stage {
            // No count is above the bytes' room.
            Stage::Count => self.count = self.count % 1000000 * 10 + digit as usize,
            Stage::First => {
                self.high = digit;
                self.stage = Stage::Second;
            }
            Stage::Second => {
                self.put(&[self.high % 16 * 16 + digit % 16]);
                self.stage = Stage::First;
            }
            Stage::Comment => {}
        }
    }

    // A text behind the bytes, where it has room.
    fn put(&mut self, text: &[u8]) {
        let start = self.end;
        let end = start.saturating_add(text.len());
        if let Some(room) = self.bytes.get_mut(start..end) {
            room.copy_from_slice(text);
            self.end = end;
        }
    }

    // A text in the place of the bytes.
    pub(crate) fn hold(&mut self, text: &[u8]) {
        self.end = 0;
        self.put(text);
    }

    // A number is ended by its colon. Each moves those before it up, so that the last one is the places
    // for words, whether two or three are there. The void breaths' lines go before the pieces; they are
    // made without the library whose loading reads them.
    fn end_number(&mut self) {
        self.voids = self.numbers;
        self.numbers = self.words;
        self.words = self.count;
        self.count = 0;
        self.end = 0;
        for n in 0..self.voids {
            let mut digits = [0; 20];
            let length = io::decimal(n as u64 + 1, &mut digits);
            self.put(&digits[..length]);
            self.put(b"\t00000000\t-\t-\n");
        }
        self.start = self.end;
    }

    // The piece that has begun is repeated until it stands there as often as it is to stand.
    pub(crate) fn end_piece(&mut self) {
        if self.count == 0 {
            self.end = self.start;
        }
        let (start, count) = (self.start, self.count);
        let mut end = self.end.min(ROOM);
        let (held, room) = self.bytes.split_at_mut(end);
        let piece = &held[start.min(held.len())..];
        let size = piece.len();
        if 0 < size {
            for copy in room.chunks_exact_mut(size).take(count.saturating_sub(1)) {
                copy.copy_from_slice(piece);
                end = end.saturating_add(size);
            }
        }
        self.end = end;
        self.begin_piece();
    }
}
