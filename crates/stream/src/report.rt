// How a run ended, said in words where errors go.
ghost use Rattle.std.specs.Prelude.{◌≡◌, Ok};

use crate::run::Cut;
use slash::Stop;
use std::io::Write;

// What stops a recording, in the words of include/slash.h.
fn meaning(number: u64) -> &'static [u8] {
    match number {
        8 => b"more than 65,536 breaths\n",
        9 => b"over 32 bytes before the line feed, or no line feed\n",
        10 => b"not three fields\n",
        11 => b"a field that is no tick mark\n",
        _ => b"no rate line, or no rate from 1 to 4096\n",
    }
}

// Each part is written at once, and each by itself: behind one that can't be, the next is tried.
fn report_stop<E: Write>(errors: &mut E, stop: Stop) {
    let _ = errors.write_all(b"night: line ");
    let _ = write!(errors, "{}", stop.place);
    let _ = errors.write_all(b": ");
    let _ = errors.write_all(meaning(stop.number));
}

// Nothing is said of a listing that is whole. What can't be said here is lost. (Where no line is told, the
// message is one write, so that those of several runs don't mix.)
pub(crate) fn report<E: Write>(run: Result<(), Cut>, errors: &mut E)
    ensures { run ≡ Ok tt → errors.new ≡ errors.old }
{
    match run {
        Ok(()) => {}
        Err(Cut::Refused(stop)) => report_stop(errors, stop),
        Err(Cut::Unread) => {
            let _ = errors.write_all(b"night: the recording cannot be read\n");
        }
        Err(Cut::Unwritten) => {
            let _ = errors.write_all(b"night: the listing cannot be written\n");
        }
    }
}
