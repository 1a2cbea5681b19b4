// Text and numbers added to what waits to be written.
ghost use Rattle.std.specs.Prelude.{◌≡◌, ◌≤◌, ◌<◌};
ghost use Rattle.text.specs.Lines.{refused_line};
ghost use Rattle.text.specs.Numbers.{decimal, hex_digit};
ghost use Rattle.inspect.specs.Columns.{last_digits};
ghost use Rattle.inspect.specs.Steps.{Room, Added};

use arrayvec::ArrayVec;
use slash::Stop;

// The text that waits to be written.
pub(crate) type Text = ArrayVec<u8, 16384>;

pub(crate) fn put_text(out: &mut Text, text: &[u8])
    requires { Room out.old.items text.now }
    ensures { Added out.old.items text.now out.new.items }
{
    out.try_extend_from_slice(text).unwrap();
}

// n in decimal.
pub(crate) fn put_number(out: &mut Text, n: u64)
    requires { Room out.old.items (decimal n) }
    ensures { Added out.old.items (decimal n) out.new.items }
{
    let mut digits = [0; 20];
    let count = io::decimal(n, &mut digits);
    put_text(out, &digits[..count]);
}

// (`char::from_digit` answers an Option of a char: to take a byte of it is no plainer.)
fn digit(d: u64) -> u8
    requires { d < 16 }
    ensures { result ≡ hex_digit d }
{
    if d < 10 {
        b'0' + d as u8
    } else {
        b'a' - 10 + d as u8
    }
}

// The last `count` digits of n in a base.
pub(crate) fn put_digits(out: &mut Text, base: u64, count: u64, n: u64)
    requires { (1 ≤ base) × (base ≤ 16) × Room out.old.items (last_digits base count n) }
    ensures { Added out.old.items (last_digits base count n) out.new.items }
{
    if count == 0 {
        return;
    }
    put_digits(out, base, count - 1, n / base);
    put_text(out, &[digit(n % base)]);
}

// The line of a stop.
pub(crate) fn put_refused(out: &mut Text, number: u64, line: u64)
    requires { Room out.old.items (refused_line number line) }
    ensures { Added out.old.items (refused_line number line) out.new.items }
{
    let mut text = [0; 50];
    let stop = Stop {
        number,
        place: line,
    };
    let length = text::refused_line(stop, &mut text);
    put_text(out, &text[..length]);
}
