// A joint of any kind, by its sheet: for lists in which the kinds mix.
ghost use Rattle.joints.specs.Any.{any_draws, any_asks};

use super::kinds::{Kind, SheetJoint};
use super::sheets::{HeelSheet, Lists, Sheet, SpliceSheet};
use plates::{Plate, Refusal, Turning, Verdict};

// An enum, since no `dyn` may be handed out.
#[derive(Clone, Copy)]
pub enum AnySheet {
    Web(Sheet),
    Heel(HeelSheet),
    Splice(SpliceSheet),
}

// It stands and judges as the joint of its kind does.
pub type AnyJoint<'a> = SheetJoint<'a, AnySheet>;

impl Kind for AnySheet {
    ghost draws = { any_draws };

    ghost asks = { any_asks };

    fn standing_over(&self, lists: &Lists) -> Result<(), Refusal> {
        match self {
            AnySheet::Web(s) => s.standing_over(lists),
            AnySheet::Heel(s) => s.standing_over(lists),
            AnySheet::Splice(s) => s.standing_over(lists),
        }
    }

    fn verdict_over(&self, lists: &Lists, plate: Plate, turning: Turning) -> Verdict {
        match self {
            AnySheet::Web(s) => s.verdict_over(lists, plate, turning),
            AnySheet::Heel(s) => s.verdict_over(lists, plate, turning),
            AnySheet::Splice(s) => s.verdict_over(lists, plate, turning),
        }
    }
}
