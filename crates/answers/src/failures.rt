// Where texts are read from, and why there are no answers.
use std::{fmt, fs, io};
use texts::Fault;

#[derive(Drop)]
pub enum Source {
    File(String),
    StandardInput,
}

#[derive(Drop)]
pub enum Cause {
    // the text could not be read
    Input(io::Error),
    // the text breaks the format
    Text(Fault),
    // an answer could not be written
    Output(io::Error),
    Memory,
}

// A cause as a person is told it: of what program, and over what text.
#[derive(Drop)]
pub struct Told<'a> {
    pub program: &'a str,
    pub source: &'a Source,
    pub cause: &'a Cause,
}

impl From<io::Error> for Cause {
    fn from(error: io::Error) -> Cause {
        Cause::Output(error)
    }
}

// The text from there.
pub fn text_of(rt: &HostRuntime, source: &Source) -> Result<String, Cause> {
    match source {
        Source::File(file) => fs::read_to_string(rt, file.as_str()),
        Source::StandardInput => io::read_to_string(rt.alloc(), rt.stdin()),
    }
    .map_err(Cause::Input)
}

impl fmt::Display for Source {
    fn fmt<W: fmt::Write>(&self, f: &mut fmt::Formatter<W>) -> fmt::Result {
        match self {
            Source::File(file) => write!(f, "{file}"),
            Source::StandardInput => f.write_str("standard input"),
        }
    }
}

impl fmt::Display for Told<'_> {
    fn fmt<W: fmt::Write>(&self, f: &mut fmt::Formatter<W>) -> fmt::Result {
        let program = self.program;
        let source = self.source;
        match self.cause {
            Cause::Input(error) => write!(f, "{source}: {error}"),
            Cause::Text(Fault::Format { line, mismatch }) => write!(
                f,
                "{source}:{line}: {mismatch}"
            ),
            Cause::Text(Fault::Memory) => write!(f, "{source}: out of memory"),
            Cause::Output(error) => write!(f, "{program}: {error}"),
            Cause::Memory => write!(f, "{program}: out of memory"),
        }
    }
}
