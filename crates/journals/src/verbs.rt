// The verbs of a journal.
ghost use Rattle.std.specs.Prelude.{◌≡◌};
ghost use Rattle.texts.specs.Words.{Named};
ghost use Rattle.journals.specs.Says.{verb_of};
ghost use Rattle.journals.specs.Verbs.{verb_word};

use std::fmt;
use texts::{Expected, Value, Word};
use yard::Call;

#[derive(Clone, Copy)]
pub enum Verb {
    Receive,
    Draw,
    Tack,
    Back,
    Press,
    Void,
    Tell,
}

impl Verb {
    // The verb that a call is written with.
    pub fn of(call: Call) -> Verb
        ensures { result ≡ verb_of call }
    {
        match call {
            Call::Receive { place: _, pairs: _ } => Verb::Receive,
            Call::Draw {
                joint: _,
                number: _,
            } => Verb::Draw,
            Call::Tack { slip: _ } => Verb::Tack,
            Call::HandBack { slip: _ } => Verb::Back,
            Call::Press { slip: _ } => Verb::Press,
            Call::Void { slip: _ } => Verb::Void,
            Call::Tell { place: _ } => Verb::Tell,
        }
    }
}

impl Value for Verb {
    ghost reads = { Named verb_word };

    fn read(word: &str) -> Option<Verb> {
        match word {
            "receive" => Some(Verb::Receive),
            "draw" => Some(Verb::Draw),
            "tack" => Some(Verb::Tack),
            "back" => Some(Verb::Back),
            "press" => Some(Verb::Press),
            "void" => Some(Verb::Void),
            "tell" => Some(Verb::Tell),
            _ => None,
        }
    }

    fn expected() -> Expected {
        Expected::OneOf("receive, draw, tack, back, press, void, tell")
    }
}

impl Word for Verb {
    ghost word = { verb_word };

    fn word(self) -> &'static str {
        match self {
            Verb::Receive => "receive",
            Verb::Draw => "draw",
            Verb::Tack => "tack",
            Verb::Back => "back",
            Verb::Press => "press",
            Verb::Void => "void",
            Verb::Tell => "tell",
        }
    }
}

impl fmt::Display for Verb {
    fn fmt<W: fmt::Write>(&self, f: &mut fmt::Formatter<W>) -> fmt::Result {
        f.write_str(self.word())
    }
}
