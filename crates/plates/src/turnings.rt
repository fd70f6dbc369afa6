// How a plate lies, and the words for it.
ghost use Rattle.std.specs.Prelude.{◌≡◌};
ghost use Rattle.plates.specs.Turnings.{turning_word};

use std::fmt;

// Unturned, its length along x; turned, its length along y.
#[derive(Clone, Copy, PartialEq, Eq, Debug)]
pub enum Turning {
    Unturned,
    Turned,
}

impl Turning {
    pub fn word(self) -> &'static str
        ensures { result.now ≡ turning_word self }
    {
        match self {
            Turning::Unturned => "unturned",
            Turning::Turned => "turned",
        }
    }
}

impl fmt::Display for Turning {
    fn fmt<W: fmt::Write>(&self, f: &mut fmt::Formatter<W>) -> fmt::Result {
        f.write_str(self.word())
    }
}
