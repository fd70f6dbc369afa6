// The yard over a pile, and its five calls.
ghost use Rattle.std.specs.Prelude.{◌≡◌, ◌<◌, length, replicate, Some, None, IfOk, IfErr};
ghost use Rattle.yard.specs.Counts.{at, counted, empty, told};
ghost use Rattle.yard.specs.Calls.{Drew, Found, HandedBack, Pressed, Received, Told, err_or_ok, has_place, in_yard, receipt_fault, slip_fault};
ghost use Rattle.yard.specs.Law.{Law};

use super::bins::Bin;
use super::slips::{DrawnSlip, Slip, SlipNumbers, TackedSlip, TurnedAway};
use choice::Candidate;
use plates::{Joint, Plate, Refusal, Supply};

pub const BINS: u32 = 256;

// A pile, the stamp that is written on the yard's slips, and the pairs at its first 256 places.
// A call that changes a bin lends all of them first: the check doesn't build `self.bins[i].draw()`.
#[derive(Drop)]
pub struct Yard<P> {
    pile: P,
    stamp: u32,
    bins: [Bin; 256],
    ghost full: { length bins ≡ 256 },
}

// The pile's plate is shown at a place only while a pair is on hand there.
impl<P: Supply> Supply for Yard<P> {
    ghost places = { λ y. P.Supply.places y.pile };

    ghost shows = { λ y. in_yard (P.Supply.shows y.pile) (told y.bins) };

    fn places(&self) -> u32 {
        self.pile.places()
    }

    fn plate(&self, place: u32) -> Option<Plate> {
        if place < BINS && self.bin(place).on_hand() > 0 {
            self.pile.plate(place)
        } else {
            None
        }
    }
}

impl<P: Supply> Yard<P> {
    ghost use Rattle.yard.specs.Yards.{SamePile};

    // A yard with no pair on hand and none out. Whatever calls are then made on it, in any order
    // and with slips of any yard, its books balance, and the next drawing is of the least pair
    // on hand that passes.
    pub fn new(pile: P, stamp: u32) -> Self
        ensures law { Law (P.Supply.places pile) (P.Supply.shows pile) stamp (told result.bins) }
        ensures bins { told result.bins ≡ replicate 256 empty }
        ensures pile { result.pile ≡ pile }
        ensures stamp { result.stamp ≡ stamp }
    {
        Yard {
            pile,
            stamp,
            bins: [Bin::EMPTY; 256],
        }
    }

    // Pairs come in at a place where the pile shows a plate.
    pub fn receive(&mut self, place: u32, pairs: u32) -> Result<(), Refusal>
        ensures answer { Received (P.Supply.places self.old.pile) (P.Supply.shows self.old.pile) (told self.old.bins) place pairs result (told self.new.bins) }
        ensures same { SamePile self.old self.new }
    {
        self.check_receipt(place, pairs)?;
        let bins = &mut self.bins;
        bins[place as usize].receive(pairs);
        Ok(())
    }

    // Chooses the least plate on hand for the joint, and moves one pair of it out on a slip.
    pub fn draw<J: Joint>(&mut self, joint: &J, number: u32) -> Result<DrawnSlip, Refusal>
        ensures answer { Drew (J.Joint.standing joint.now) (J.Joint.verdict joint.now) (P.Supply.shows self.old.pile) self.old.stamp (told self.old.bins) number result (told self.new.bins) }
        ensures same { SamePile self.old self.new }
    {
        let candidate = self.least_on_hand(joint)?;
        let bins = &mut self.bins;
        bins[candidate.0 as usize].draw();
        Ok(self.slip_for(candidate, number))
    }

    // The pair of a drawn slip comes back on hand, and the slip ends.
    pub fn hand_back(&mut self, slip: DrawnSlip) -> Result<(), TurnedAway<DrawnSlip>>
        ensures answer { HandedBack self.old.stamp (told self.old.bins) slip result (told self.new.bins) }
        ensures same { SamePile self.old self.new }
    {
        let place = self.ended(slip)?;
        let bins = &mut self.bins;
        bins[place as usize].hand_back();
        Ok(())
    }

    // The pair of a tacked slip is pressed into its joint, and the slip ends.
    pub fn press(&mut self, slip: TackedSlip) -> Result<(), TurnedAway<TackedSlip>>
        ensures answer { Pressed self.old.stamp (told self.old.bins) slip result (told self.new.bins) }
        ensures same { SamePile self.old self.new }
    {
        let place = self.ended(slip)?;
        let bins = &mut self.bins;
        bins[place as usize].press();
        Ok(())
    }

    // The two numbers of a place.
    pub fn tell(&self, place: u32) -> Result<Bin, Refusal>
        ensures { Told (P.Supply.places self.now.pile) (told self.now.bins) place result }
    {
        if self.has_place(place) {
            Ok(self.bin(place))
        } else {
            Err(Refusal::NoPlace { place })
        }
    }

    // The least pair on hand that passes the joint: its place, and the turning found for it.
    fn least_on_hand<J: Joint>(&self, joint: &J) -> Result<Candidate, Refusal>
        ensures { Found (J.Joint.standing joint.now) (J.Joint.verdict joint.now) (in_yard (P.Supply.shows self.now.pile) (told self.now.bins)) result }
    {
        Ok(choice::choose(joint, self)?.candidate)
    }

    fn slip_for(&self, candidate: Candidate, number: u32) -> DrawnSlip
        ensures { result.numbers ≡ record { stamp = self.now.stamp; place = candidate.0; turning = candidate.1; joint = number } }
    {
        DrawnSlip::new(SlipNumbers {
            stamp: self.stamp,
            place: candidate.0,
            turning: candidate.1,
            joint: number,
        })
    }

    // A receipt is turned away where the yard has no such place, or no room there.
    fn check_receipt(&self, place: u32, pairs: u32) -> Result<(), Refusal>
        ensures { result ≡ err_or_ok (receipt_fault (P.Supply.places self.now.pile) (P.Supply.shows self.now.pile) (told self.now.bins) place pairs) }
    {
        if !self.has_place(place) || self.pile.plate(place).is_none() {
            return Err(Refusal::NoPlace { place });
        }
        if !self.bin(place).takes(pairs) {
            return Err(Refusal::BadReceipt { place });
        }
        Ok(())
    }

    // Ends a slip that is not turned away, and gives its place.
    fn ended<S>(&self, slip: Slip<S>) -> Result<u32, TurnedAway<Slip<S>>>
        ensures turned_away { IfErr result (λ t. (slip_fault self.now.stamp (told self.now.bins) slip.numbers ≡ Some t.refusal) × (t.slip ≡ slip)) }
        ensures ended { IfOk result (λ k. (slip_fault self.now.stamp (told self.now.bins) slip.numbers ≡ None) × (k ≡ slip.numbers.place)) }
    {
        match self.check_slip(slip.numbers()) {
            Ok(()) => Ok(slip.end().place),
            Err(refusal) => Err(TurnedAway { refusal, slip }),
        }
    }

    // A slip is turned away where it is of another stamp, or no pair is out at its place.
    fn check_slip(&self, slip: SlipNumbers) -> Result<(), Refusal>
        ensures { result ≡ err_or_ok (slip_fault self.now.stamp (told self.now.bins) slip) }
    {
        if slip.stamp != self.stamp {
            return Err(Refusal::OtherStamp);
        }
        if slip.place >= BINS || self.bin(slip.place).out() == 0 {
            return Err(Refusal::NoneOut);
        }
        Ok(())
    }

    fn has_place(&self, place: u32) -> bool
        ensures { result ≡ has_place (P.Supply.places self.now.pile) place }
    {
        place < BINS && place < self.pile.places()
    }

    fn bin(&self, place: u32) -> Bin
        requires { place < 256 }
        ensures { counted result ≡ at (told self.now.bins) place }
    {
        self.bins[place as usize]
    }
}
