// Web joints.
ghost use Rattle.joints.specs.Web.{web_draws, web_asks};

use super::grounds::{grounds, spanned, truss_ranged};
use super::kinds::{Kind, SheetJoint};
use super::sheets::{Lists, Sheet};
use super::trying::{Lawful, OFF_HEEL};
use plates::{Plate, Refusal, Turning, Verdict};

pub type WebJoint<'a> = SheetJoint<'a, Sheet>;

impl Kind for Sheet {
    ghost draws = { web_draws };

    ghost asks = { web_asks };

    fn standing_over(&self, lists: &Lists) -> Result<(), Refusal> {
        let right = truss_ranged(self);
        grounds(right, spanned(self, lists.members.len()), self, lists)
    }

    fn verdict_over(&self, lists: &Lists, plate: Plate, turning: Turning) -> Verdict {
        Lawful::new(self, lists).tried(&self.conditions, OFF_HEEL, plate, turning)
    }
}
