// How the pieces of an answer are written.
use slash::Stop;
use std::fmt;
use std::fmt::Display;

// A word, in hexadecimal.
#[derive(Drop)]
pub(crate) struct Word(pub(crate) u64);

impl Display for Word {
    fn fmt<W: fmt::Write>(&self, f: &mut fmt::Formatter<W>) -> fmt::Result {
        let w = self.0;
        write!(f, "{w:x}")
    }
}

// A stop in full.
#[derive(Drop)]
pub(crate) struct Full(pub(crate) Stop);

impl Display for Full {
    fn fmt<W: fmt::Write>(&self, f: &mut fmt::Formatter<W>) -> fmt::Result {
        let stop = self.0;
        write!(f, "stop {} {}", stop.number, stop.place)
    }
}

// What a call told: its answer, or a stop in full.
#[derive(Drop)]
pub(crate) struct Told<T>(pub(crate) Result<T, Stop>);

impl<T: Display> Display for Told<T> {
    fn fmt<W: fmt::Write>(&self, f: &mut fmt::Formatter<W>) -> fmt::Result {
        match &self.0 {
            Ok(answer) => write!(f, "{answer}"),
            Err(stop) => write!(f, "{}", Full(*stop)),
        }
    }
}

// What a call told that makes nothing.
pub(crate) fn done(told: Result<(), Stop>) -> Told<&'static str> {
    Told(told.map(|()| "done"))
}

// What a call told as one of many answers: a stop by its number.
#[derive(Drop)]
pub(crate) struct Brief<T>(pub(crate) Result<T, Stop>);

impl<T: Display> Display for Brief<T> {
    fn fmt<W: fmt::Write>(&self, f: &mut fmt::Formatter<W>) -> fmt::Result {
        match &self.0 {
            Ok(answer) => write!(f, "{answer}"),
            Err(stop) => write!(f, "!{}", stop.number),
        }
    }
}
