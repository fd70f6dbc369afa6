// The slips. Each stands for one pair out of a yard. A drawn slip comes from a drawing alone,
// and a slip is ended by handing it back, pressing it or voiding it: it cannot be made by
// hand, copied or let go.
ghost use Rattle.std.specs.Prelude.{◌≡◌};

use plates::{Refusal, Turning};
use std::marker::PhantomData;

// What is written on a slip: the yard's stamp, the place of the pair, the turning that it was
// drawn for, and the caller's number for the joint.
#[derive(Clone, Copy, PartialEq, Eq, Debug)]
pub struct SlipNumbers {
    pub stamp: u32,
    pub place: u32,
    pub turning: Turning,
    pub joint: u32,
}

// A slip in the state `S`.
pub struct Slip<S> {
    numbers: SlipNumbers,
    state: PhantomData<S>,
}

// The state of a slip whose plates are not tacked on yet.
pub struct Drawn;

// The state of one whose plates are.
pub struct Tacked;

pub type DrawnSlip = Slip<Drawn>;

pub type TackedSlip = Slip<Tacked>;

// A call that took a slip was turned away: the slip comes back to its holder.
pub struct TurnedAway<S> {
    pub refusal: Refusal,
    pub slip: S,
}

impl<S> Slip<S> {
    pub fn numbers(&self) -> SlipNumbers
        ensures { result ≡ self.now.numbers }
    {
        self.numbers
    }

    // Ends the slip with no yard: its pair stays out.
    pub fn void(self) -> SlipNumbers
        ensures { result ≡ self.numbers }
    {
        self.end()
    }

    pub(crate) fn end(self) -> SlipNumbers
        ensures { result ≡ self.numbers }
    {
        let Slip { numbers, state: _ } = self;
        numbers
    }
}

impl Slip<Drawn> {
    // A new slip, for a pair that a drawing has just moved out.
    pub(crate) fn new(numbers: SlipNumbers) -> Self
        ensures { result.numbers ≡ numbers }
    {
        Slip {
            numbers,
            state: PhantomData,
        }
    }

    // The plates are tacked on: the slip can now be pressed, and no more be handed back.
    pub fn tack(self) -> TackedSlip
        ensures { result.numbers ≡ self.numbers }
    {
        Slip {
            numbers: self.end(),
            state: PhantomData,
        }
    }
}
