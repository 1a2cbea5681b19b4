// Lists the recordings in the files that its arguments name, each behind its name, and tells how
// each run ended; then all of them once more, to where nothing can be written. tests/second writes
// the files and what must be written.

#![tactic(auto)]

use slash::Stop;
use std::env::FillError;
use std::io::{Read, Write};
use std::rt::Env;
use std::{fs, io};
use stream::Cut;

// A recording that can't be read: no file.
#[derive(Drop)]
struct Unreadable;

impl Read for Unreadable {
    fn read(&mut self, _buf: &mut [u8]) -> io::Result<usize> {
        Err(io::Error::from(io::ErrorKind::NotFound))
    }
}

// Where nothing can be written, and no descriptor is at hand.
#[derive(Drop)]
struct Nowhere;

impl Write for Nowhere {
    fn write(&mut self, _buf: &[u8]) -> io::Result<usize> {
        Err(io::Error::from(io::ErrorKind::BrokenPipe))
    }

    fn flush(&mut self) -> io::Result<()> {
        Ok(())
    }
}

fn show(rt: &HostRuntime, text: &[u8]) {
    let _ = rt.stdout().write_all(text);
}

fn show_stop(rt: &HostRuntime, stop: Stop) {
    let mut line = [0; 50];
    let n = text::refused_line(stop, &mut line);
    show(rt, &line[..n]);
}

fn show_end(rt: &HostRuntime, run: Result<(), Cut>) {
    show(rt, b"# ");
    match run {
        Ok(()) => show(rt, b"listed\n"),
        Err(Cut::Refused(stop)) => show_stop(rt, stop),
        Err(Cut::Unread) => show(rt, b"unread\n"),
        Err(Cut::Unwritten) => show(rt, b"unwritten\n"),
    }
}

// The recording in the file of a name, or of none that can be opened.
fn list_named<W: Write>(rt: &HostRuntime, name: &[u8], to: &mut W) -> Result<(), Cut> {
    if let Ok(path) = str::from_utf8(name) {
        if let Ok(mut file) = fs::open(rt, path) {
            return stream::night(&mut file, to, &mut rt.stdout());
        }
    }
    stream::night(&mut Unreadable, to, &mut rt.stdout())
}

// One argument's file.
fn list_file<W: Write>(rt: &HostRuntime, name: &[u8], to: &mut W) {
    show(rt, b"# ");
    show(rt, name);
    show(rt, b"\n");
    let run = list_named(rt, name, to);
    show_end(rt, run);
}

// Each argument's file. (`env::args` would refuse them all where one is no text.)
fn list_files<W: Write>(rt: &HostRuntime, to: &mut W) {
    let mut name = [0u8; 4096];
    for i in 1..usize::MAX {
        let n = match rt.arg(i, &mut name) {
            Ok(n) => n,
            // Shown without its name, and unread.
            Err(FillError::TooLong) => 0,
            Err(FillError::NotPresent) => return,
        };
        list_file(rt, &name[..n], to);
    }
}

fn main(rt: HostRuntime) {
    list_files(&rt, &mut rt.stdout());
    // Nothing can be written to a folder that is open for reading.
    match fs::open(&rt, ".") {
        Ok(mut folder) => list_files(&rt, &mut folder),
        Err(_) => list_files(&rt, &mut Nowhere),
    }
}
