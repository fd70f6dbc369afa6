// What an answer says of a slip.
ghost use Rattle.std.specs.Prelude.{◌≡◌};
ghost use Rattle.plays.specs.Fates.{fate_of, slip_of};

use yard::{Answer, Call, SlipNumbers};

#[derive(Clone, Copy)]
pub enum Fate {
    Drawn(SlipNumbers),
    Tacked,
    Pressed,
    Voided,
    // it says nothing of a slip, or leaves it as it was, or the slip went back
    Other,
}

pub fn fate_of(answer: Answer) -> Fate
    ensures { result ≡ fate_of answer }
{
    match answer {
        Answer::Drawn(Ok(slip)) => Fate::Drawn(slip),
        Answer::Tacked => Fate::Tacked,
        Answer::Pressed(Ok(())) => Fate::Pressed,
        Answer::Voided(_) => Fate::Voided,
        _ => Fate::Other,
    }
}

// The slip that a call names, by the index of its drawing.
pub fn slip_of(call: Call) -> Option<usize>
    ensures { result ≡ slip_of call }
{
    match call {
        Call::Tack { slip }
        | Call::HandBack { slip }
        | Call::Press { slip }
        | Call::Void { slip } => Some(slip),
        _ => None,
    }
}
