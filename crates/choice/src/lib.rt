// Judging one plate, choosing the least and explaining, for any joint and any supply; and the
// row book that takes what is explained.
#![tactic(auto)]

ghost use Rattle.std.specs.Prelude.{◌≡◌, ◌+◌};
ghost use Rattle.plates.specs.Size.{size};
ghost use Rattle.choice.specs.Choosing.{Answered, Chosen, Judged};
ghost use Rattle.choice.specs.Offers.{answered, below, Best, first_passing, lesser_of, offered};

pub mod book;
pub mod explaining;
mod survey;
#[cfg(test)]
mod tests;

pub use book::RowBook;
pub use explaining::{ExplainRow, explain};
use plates::{Joint, Plate, Refusal, Supply, Turning, Verdict};
use survey::Survey;

// A candidate: the place of a plate and its turning.
pub type Candidate = (u32, Turning);

// What choose answers: the candidate, the area of one face of its plate in mm²,
// and how many places were asked.
#[derive(Clone, Copy)]
pub struct Choice {
    pub candidate: Candidate,
    pub area: u32,
    pub asked: u32,
}

// A candidate that passes, with the area of its plate.
#[derive(Clone, Copy)]
struct Offer {
    candidate: Candidate,
    area: u32,
}

// The verdict on one plate in one turning, or the joint's refusal.
pub fn judge<J: Joint>(joint: &J, plate: Plate, turning: Turning) -> Result<Verdict, Refusal>
    ensures { Judged (J.standing joint.now) (J.verdict joint.now) plate turning result }
{
    joint.standing()?;
    Ok(joint.verdict(plate, turning))
}

// The least plate that passes, of all that the supply shows; ties go to the lower place,
// then to unturned.
pub fn choose<J: Joint, S: Supply>(joint: &J, supply: &S) -> Result<Choice, Refusal>
    ensures { Chosen (J.standing joint.now) (J.verdict joint.now) (S.places supply.now) (S.shows supply.now) result }
{
    Survey::of(joint, supply)?.least()
}

impl<J: Joint, S: Supply> Survey<'_, J, S> {
    // The least plate that passes, with every place asked: each question is counted as it is put.
    #[tactic(auto, using(crate::proofs::End::all_asked))]
    fn least(&self) -> Result<Choice, Refusal>
        ensures { Answered (J.verdict self.now.joint.now) (S.places self.now.supply.now) (S.shows self.now.supply.now) result }
    {
        let mut best = None;
        let mut asked = 0;
        for place in 0..self.supply.places() {
            asked += 1;
            best = self.best_through(place, best);
        }
        answer(best, asked)
    }

    // The best offer of the places up to and with this one, from the best of those before it.
    #[tactic(auto, using(crate::proofs::Step::best_through))]
    fn best_through(&self, place: u32, best: Option<Offer>) -> Option<Offer>
        requires { Best (J.verdict self.now.joint.now) (below place (S.shows self.now.supply.now)) best }
        ensures { Best (J.verdict self.now.joint.now) (below (place + 1) (S.shows self.now.supply.now)) result }
    {
        lesser(best, self.offer_at(place))
    }

    // What the plate at one place offers, if it passes.
    fn offer_at(&self, place: u32) -> Option<Offer>
        ensures { result ≡ offered (J.verdict self.now.joint.now) place (S.shows self.now.supply.now place) }
    {
        let plate = self.supply.plate(place)?;
        let turning = self.passing_turning(plate)?;
        Some(Offer {
            candidate: (place, turning),
            area: plate.area(),
        })
    }

    // The first turning in which the plate passes: unturned is tried first.
    fn passing_turning(&self, plate: Plate) -> Option<Turning>
        ensures { result ≡ first_passing (J.verdict self.now.joint.now (size plate)) }
    {
        [Turning::Unturned, Turning::Turned]
            .into_iter()
            .find(|turning| self.verdict(plate, *turning).passes())
    }
}

// The offer of less area; of equal ones the earlier.
fn lesser(earlier: Option<Offer>, later: Option<Offer>) -> Option<Offer>
    ensures { result ≡ lesser_of earlier later }
{
    later
        .filter(|new| earlier.is_none_or(|old| new.area < old.area))
        .or(earlier)
}

// What a search answers that came to this offer.
fn answer(best: Option<Offer>, asked: u32) -> Result<Choice, Refusal>
    ensures { result ≡ answered best asked }
{
    best.map(|offer| Choice {
        candidate: offer.candidate,
        area: offer.area,
        asked,
    })
    .ok_or(Refusal::NothingFits)
}
