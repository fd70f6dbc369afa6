// Splice joints.
ghost use Rattle.std.specs.Prelude.{◌≡◌, true};
ghost use Rattle.clauses.specs.Clauses.{laid};
ghost use Rattle.clauses.specs.Within.{TrialWithin};
ghost use Rattle.joints.specs.Splices.{splice_ranged, splice_clauses, splice_draws, splice_asks};
ghost use Rattle.joints.specs.Verdict.{first_missed};

use super::grounds::{grounds, paired, truss_ranged};
use super::kinds::{Kind, SheetJoint};
use super::sheets::{Lists, SpliceSheet};
use super::trying::{Lawful, OFF_HEEL, missed};
use clauses::{Trial, extends, holds_moment, section};
use plates::{Clause, Plate, Refusal, Turning, Verdict};

const MAX_MOMENT: u32 = 20_000_000;

const MAX_WOOD: u32 = 400;

// Ground 1.
fn splice_ranged(splice: &SpliceSheet) -> bool
    ensures { result ≡ splice_ranged splice.now }
{
    truss_ranged(&splice.sheet)
        && splice.moment <= MAX_MOMENT
        && (1..=MAX_WOOD).contains(&splice.wood)
}

// J and K, of the first member.
fn splice_clauses(splice: &SpliceSheet, trial: &Trial, lawful: &Lawful) -> Verdict
    requires ranged { splice_ranged splice.now ≡ true }
    requires trial { TrialWithin trial.now }
    ensures { result ≡ first_missed (splice_clauses splice.now (laid trial.now) lawful.now.own.now) lawful.now.own.now }
{
    let Some(first) = lawful.own.first() else {
        return Verdict::Passes;
    };
    if !extends(trial, first) {
        return missed(Clause::Extent);
    }
    if !holds_moment(splice.moment, &section(trial, first, splice.wood)) {
        return missed(Clause::Moment);
    }
    Verdict::Passes
}

pub type SpliceJoint<'a> = SheetJoint<'a, SpliceSheet>;

impl Kind for SpliceSheet {
    ghost draws = { splice_draws };

    ghost asks = { splice_asks };

    fn standing_over(&self, lists: &Lists) -> Result<(), Refusal> {
        let sheet = &self.sheet;
        let right = splice_ranged(self);
        grounds(right, paired(sheet, lists.members.len()), sheet, lists)
    }

    // A to I, then J and K.
    #[tactic(auto, using(crate::proofs::Verdicts::missed_before, crate::proofs::Verdicts::passed_before))]
    fn verdict_over(&self, lists: &Lists, plate: Plate, turning: Turning) -> Verdict {
        let conditions = self.sheet.conditions;
        let lawful = Lawful::new(&self.sheet, lists);
        let verdict = lawful.tried(&conditions, OFF_HEEL, plate, turning);
        if !verdict.passes() {
            return verdict;
        }
        let Some(card) = lawful.card(plate.family()) else {
            return verdict;
        };
        splice_clauses(
            self,
            &Trial {
                conditions,
                factor: OFF_HEEL,
                card,
                plate,
                turning,
            },
            &lawful,
        )
    }
}
