// A supply as a joint sees it that stands, and so has a verdict on every plate.
ghost use Rattle.std.specs.Prelude.{◌≡◌, MatchResult, Ok};
ghost use Rattle.plates.specs.Size.{size};
ghost use Rattle.plates.specs.Refusals.{Grounded};

use plates::{Joint, Plate, Refusal, Supply, Turning, Verdict};

#[derive(Drop)]
pub(crate) struct Survey<'a, J: Joint, S> {
    joint: &'a J,
    pub(crate) supply: &'a S,
    ghost lawful: { J.standing joint.now ≡ Ok tt },
}

impl<'a, J: Joint, S: Supply> Survey<'a, J, S> {
    // The joint's survey of the supply, or the joint's refusal.
    pub(crate) fn of(joint: &'a J, supply: &'a S) -> Result<Self, Refusal>
        ensures survey { MatchResult result (λ s. (s.joint.now ≡ joint.now) × (s.supply.now ≡ supply.now)) (λ e. J.standing joint.now ≡ Err e) }
        ensures grounded { Grounded (J.standing joint.now) }
    {
        joint.standing()?;
        Ok(Survey { joint, supply })
    }

    pub(crate) fn verdict(&self, plate: Plate, turning: Turning) -> Verdict
        ensures { result ≡ J.verdict self.now.joint.now (size plate) turning }
    {
        self.joint.verdict(plate, turning)
    }
}
