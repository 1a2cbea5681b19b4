// The input read to its end, and what is printed of it written.
ghost use Rattle.std.specs.Prelude.{◌≡◌, ◌+◌, ◌≤◌, [], OnOk, length};

use crate::line::{format_behind, put_said};
use crate::said::{Said, read_line};
use crate::store::Text;
use arrayvec::ArrayVec;
use slash::Format;
use std::fmt;
use std::io::{Read, Write};

// Room for what is printed of any line.
const LINE_ROOM: usize = 1024;

// What ended a run before its input did.
#[derive(Clone, Copy)]
pub(crate) enum Cut {
    Unread,
    Unwritten,
}

impl fmt::Display for Cut {
    fn fmt<W: fmt::Write>(&self, f: &mut fmt::Formatter<W>) -> fmt::Result {
        f.write_str(match self {
            Cut::Unread => "the words cannot be read",
            Cut::Unwritten => "the text cannot be written",
        })
    }
}

// What lies between two bytes of the input: the format, the number of the line, what is held of it, and
// the text that waits to be written. Of a line one byte more is held than it may have, which stands for
// any more.
#[derive(Drop)]
struct Run {
    format: Format,
    line: u64,
    held: ArrayVec<u8, 33>,
    text: Text,
}

impl Run {
    // The run before the first byte. No format is set: 0 is no kind.
    fn new() -> Run {
        Run {
            format: Format { kind: 0, k: 0 },
            line: 1,
            held: ArrayVec::new(),
            text: ArrayVec::new(),
        }
    }

    // Writes the text that waits.
    fn write<W: Write>(&mut self, output: &mut W) -> Result<(), Cut>
        ensures { OnOk result (self.new.text.items ≡ []) }
    {
        if output.write_all(self.text.as_slice()).is_err() {
            return Err(Cut::Unwritten);
        }
        self.text.clear();
        Ok(())
    }

    // Writes the text that waits, unless there is room behind it for the longest that is printed of a line.
    fn make_room<W: Write>(&mut self, output: &mut W) -> Result<(), Cut>
        ensures { OnOk result (length self.new.text.items + 1024 ≤ 16384) }
    {
        if self.text.remaining_capacity() < LINE_ROOM {
            self.write(output)?;
        }
        Ok(())
    }

    // Prints what a line says, and goes on to the next one.
    fn print<W: Write>(&mut self, said: Said, output: &mut W) -> Result<(), Cut> {
        self.make_room(output)?;
        put_said(&mut self.text, self.format, self.line, said);
        self.format = format_behind(self.format, said);
        self.line = self.line.saturating_add(1);
        self.held.clear();
        Ok(())
    }

    // What the held bytes say.
    fn said(&self) -> Said {
        read_line(self.held.as_slice())
    }

    // Takes some bytes of the input, one by one, and writes what is printed of them; up to a write that
    // fails.
    fn take<W: Write>(&mut self, bytes: &[u8], output: &mut W) -> Result<(), Cut> {
        for &b in bytes {
            if b == b'\n' {
                self.print(self.said(), output)?;
            } else {
                // Held where there is room.
                let _ = self.held.try_push(b);
            }
        }
        self.write(output)
    }

    // The end of the input, which may have come before a line's end.
    fn end<W: Write>(&mut self, output: &mut W) -> Result<(), Cut> {
        if self.held.is_empty() {
            return Ok(());
        }
        self.print(Said::Unended, output)?;
        self.write(output)
    }
}

// Reads the input to its end, or up to a write that fails. A pipe may hand over few bytes a read.
pub(crate) fn inspect<R: Read, W: Write>(input: &mut R, output: &mut W) -> Result<(), Cut> {
    let mut bytes = [0; 16384];
    let mut run = Run::new();
    // No input takes so many reads.
    for _ in 0..u64::MAX {
        let Ok(n) = input.read(&mut bytes) else {
            return Err(Cut::Unread);
        };
        if n == 0 {
            return run.end(output);
        }
        run.take(&bytes[..n], output)?;
    }
    Ok(())
}
