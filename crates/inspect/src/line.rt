// What is printed of a line of input, and the format behind it.
ghost use Rattle.std.specs.Prelude.{◌≡◌};
ghost use Rattle.inspect.specs.Lines.{said_text, format_behind};
ghost use Rattle.inspect.specs.Steps.{Room, Added};

use crate::said::Said;
use crate::store::{Text, put_refused};
use crate::word::put_word;
use slash::{Format, Stop};

// What is refused besides is printed by a number too, as a stop is. A line that is too long, or isn't ended.
const UNENDED: u64 = 9;

// A line that is neither a format's nor a word's.
const OTHER: u64 = 13;

// Adds what is printed of a line.
pub(crate) fn put_said(out: &mut Text, f: Format, line: u64, said: Said)
    requires { Room out.old.items (said_text f line said) }
    ensures { Added out.old.items (said_text f line said) out.new.items }
{
    match said {
        Said::Format(g) => {
            if !g.is_known() {
                put_refused(out, Stop::FORMAT, line);
            }
        }
        Said::Word(w) => put_word(out, f, line, w),
        Said::Other => put_refused(out, OTHER, line),
        Said::Unended => put_refused(out, UNENDED, line),
    }
}

// The format of the words behind a line.
pub(crate) fn format_behind(f: Format, said: Said) -> Format
    ensures { result ≡ format_behind f said }
{
    match said {
        Said::Format(g) => g,
        Said::Word(_) | Said::Other | Said::Unended => f,
    }
}
