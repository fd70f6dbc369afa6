// A joint of a sheet over the caller's members and cards, whatever the sheet's kind.
ghost use Rattle.std.specs.Prelude.{◌≡◌, List, Ok};
ghost use Rattle.plates.specs.Size.{Size, size};
ghost use Rattle.plates.specs.declared.turnings.Turning.{Turning};
ghost use Rattle.rules.specs.declared.terms.Card.{Card};
ghost use Rattle.rules.specs.declared.terms.Member.{Member};
ghost use Rattle.joints.specs.Grounds.{Drawing, Stands, stands};
ghost use Rattle.joints.specs.Joints.{joint_drawing, joint_standing, joint_checks, joint_verdict};
ghost use Rattle.joints.specs.Verdict.{Check, Judges, first_missed};

use super::sheets::Lists;
use plates::{Joint, Plate, Refusal, Turning, Verdict};
use rules::{Card, Member};

// A kind of sheet: what the grounds look at, and what the clauses ask, over members and cards.
pub trait Kind {
    ghost draws: { Self → List Member → List Card → Drawing };

    ghost asks: { Self → List Member → List Card → Size → Turning → List Check };

    // The grounds in their order.
    fn standing_over(&self, lists: &Lists) -> Result<(), Refusal>
        ensures { result ≡ stands (draws self.now lists.now.members.now lists.now.cards.now) };

    // The clauses in their order.
    fn verdict_over(&self, lists: &Lists, plate: Plate, turning: Turning) -> Verdict
        requires { stands (draws self.now lists.now.members.now lists.now.cards.now) ≡ Ok tt }
        ensures { result ≡ first_missed (asks self.now lists.now.members.now lists.now.cards.now (size plate) turning) (draws self.now lists.now.members.now lists.now.cards.now).members };
}

// A joint over the caller's members and cards; family k is card k, counted from 0.
#[derive(Clone, Copy)]
pub struct SheetJoint<'a, K> {
    sheet: K,
    members: &'a [Member],
    cards: &'a [Card],
}

impl<'a, K: Kind> SheetJoint<'a, K> {
    // Its standing is lawful or names the first fault of the first ground that is given; its
    // verdict on a plate is 'passes' where every clause is met, else the first clause missed and
    // its first member.
    #[tactic(auto, using(crate::proofs::Standing::stands_so, crate::proofs::Verdicts::judges))]
    pub fn new(sheet: K, members: &'a [Member], cards: &'a [Card]) -> Self
        ensures sheet { result.sheet ≡ sheet }
        ensures members { result.members.now ≡ members.now }
        ensures cards { result.cards.now ≡ cards.now }
        ensures stands { Stands (joint_drawing K.draws result) (joint_standing K.draws result) }
        ensures judges { (s : Size) (t : Turning) → Judges (joint_checks K.asks result s t) (joint_drawing K.draws result).members (joint_verdict K.draws K.asks result s t) }
    {
        SheetJoint {
            sheet,
            members,
            cards,
        }
    }
}

impl<'a, K> SheetJoint<'a, K> {
    fn lists(&self) -> Lists<'a>
        ensures members { result.members.now ≡ self.now.members.now }
        ensures cards { result.cards.now ≡ self.now.cards.now }
    {
        Lists {
            members: self.members,
            cards: self.cards,
        }
    }
}

impl<K: Kind> Joint for SheetJoint<'_, K> {
    ghost standing = { joint_standing K.draws };

    ghost verdict = { joint_verdict K.draws K.asks };

    fn standing(&self) -> Result<(), Refusal> {
        self.sheet.standing_over(&self.lists())
    }

    fn verdict(&self, plate: Plate, turning: Turning) -> Verdict {
        self.sheet.verdict_over(&self.lists(), plate, turning)
    }
}
