// The column of a word's partial quotients.
ghost use Rattle.std.specs.Prelude.{◌≡◌};
ghost use Rattle.euclid.specs.Quotients.{word_quotients};
ghost use Rattle.inspect.specs.Columns.{behind_spaces, quotients_text};
ghost use Rattle.inspect.specs.Steps.{Room, Added, column, quotients_column};

use crate::store::{Text, put_number, put_text};
use slash::Format;

// Numbers, each behind a space.
fn put_behind_spaces(out: &mut Text, list: &[u32])
    requires { Room out.old.items (behind_spaces list.now) }
    ensures { Added out.old.items (behind_spaces list.now) out.new.items }
{
    for &q in list {
        put_text(out, b" ");
        put_number(out, q as u64);
    }
}

fn put_list(out: &mut Text, list: &[u32])
    requires { Room out.old.items (column (quotients_text list.now)) }
    ensures { Added out.old.items (column (quotients_text list.now)) out.new.items }
{
    let [first, rest @ ..] = list else {
        put_text(out, b"\t-");
        return;
    };
    put_text(out, b"\t");
    put_number(out, *first as u64);
    put_behind_spaces(out, rest);
}

// The quotients of a word; of a word that is refused nothing.
pub(crate) fn put_quotients(out: &mut Text, f: Format, w: u64)
    requires { Room out.old.items (quotients_column (word_quotients f w)) }
    ensures { Added out.old.items (quotients_column (word_quotients f w)) out.new.items }
{
    // A place for each quotient that a word can have: no format's k is above 32, and no word has more than 2k.
    let mut list = [0; 64];
    if let Ok(n) = euclid::quotients(f, w, &mut list) {
        put_list(out, &list[..n as usize]);
    }
}
