// Heel joints.
ghost use Rattle.std.specs.Prelude.{◌≡◌};
ghost use Rattle.joints.specs.Heels.{heel_ranged, heel_draws, heel_asks};

use super::grounds::{grounds, spanned, truss_ranged};
use super::kinds::{Kind, SheetJoint};
use super::sheets::{HeelSheet, Lists};
use super::trying::Lawful;
use plates::{Plate, Refusal, Turning, Verdict};
use rules::heel_factor;

const MAX_SLOPE: u32 = 10_000;

// Ground 1.
fn heel_ranged(heel: &HeelSheet) -> bool
    ensures { result ≡ heel_ranged heel.now }
{
    truss_ranged(&heel.sheet)
        && (1..=MAX_SLOPE).contains(&heel.rise)
        && (1..=MAX_SLOPE).contains(&heel.run)
}

pub type HeelJoint<'a> = SheetJoint<'a, HeelSheet>;

impl Kind for HeelSheet {
    ghost draws = { heel_draws };

    ghost asks = { heel_asks };

    fn standing_over(&self, lists: &Lists) -> Result<(), Refusal> {
        let sheet = &self.sheet;
        let right = heel_ranged(self);
        grounds(right, spanned(sheet, lists.members.len()), sheet, lists)
    }

    fn verdict_over(&self, lists: &Lists, plate: Plate, turning: Turning) -> Verdict {
        let factor = heel_factor(self.rule, self.rise, self.run);
        let lawful = Lawful::new(&self.sheet, lists);
        lawful.tried(&self.sheet.conditions, factor, plate, turning)
    }
}
