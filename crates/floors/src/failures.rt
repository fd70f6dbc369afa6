// Why the floor ends without its answers.
use answers::{Cause, Source, Told};
use std::{fmt, io};

const PROGRAM: &str = "floor";

#[derive(Drop)]
pub enum Failure {
    // the arguments are not those of the program
    Usage,
    // a text could not be read, or breaks its format
    Unread { source: Source, cause: Cause },
    // an answer could not be written
    Output(io::Error),
    // memory ran out when so many calls were done
    Memory { done: usize },
}

impl From<io::Error> for Failure {
    fn from(error: io::Error) -> Failure {
        Failure::Output(error)
    }
}

impl fmt::Display for Failure {
    fn fmt<W: fmt::Write>(&self, f: &mut fmt::Formatter<W>) -> fmt::Result {
        match self {
            Failure::Usage => f.write_str("usage: floor JOB JOURNAL [STAMP]"),
            Failure::Unread { source, cause } => {
                let told = Told {
                    program: PROGRAM,
                    source,
                    cause,
                };
                write!(f, "{told}")
            }
            Failure::Output(error) => write!(f, "{PROGRAM}: {error}"),
            Failure::Memory { done } => write!(
                f,
                "{PROGRAM}: out of memory, {done} calls were done"
            ),
        }
    }
}
