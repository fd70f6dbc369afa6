// The sheets of a job, handed to the engine.
ghost use Rattle.std.specs.Prelude.{◌≡◌, IfOk, MatchResult};
ghost use Rattle.joints.specs.declared.any.AnySheet.TheVariants.{Web};
ghost use Rattle.jobs.specs.Fits.{Fits};
ghost use Rattle.jobs.specs.Reading.{said};
ghost use Rattle.jobs.specs.declared.openers.Format.TheVariants.{Webs};
ghost use Rattle.choice.specs.Choosing.{Chosen};
ghost use Rattle.asking.specs.Picks.{as_choice, Shown};
ghost use Rattle.asking.specs.Piles.{pile_places, pile_shows};
ghost use Rattle.asking.specs.Sheets.{AllDrawn, Drawn, Picks, Judges, Explains, Unexplained};
ghost use Rattle.asking.specs.Webs.{WebDrawn, WebPicks, WebJudges};

use super::accounts::{NoAccount, account};
use super::picks::{Picked, pick};
use super::pile::JobPile;
use blocks::Tried;
use choice::{ExplainRow, judge};
use jobs::{Entry, Job};
use joints::{AnyJoint, AnySheet, Sheet, WebJoint};
use plates::{Joint, Refusal, Verdict};
use std::alloc::{AllocError, Global};

// A sheet of a job.
#[derive(Clone, Copy)]
pub struct JobSheet<'a> {
    pub job: &'a Job,
    pub entry: Entry,
}

impl<'a> JobSheet<'a> {
    // Its joint, over the job's members and cards.
    pub fn joint(&self) -> AnyJoint<'a>
        ensures { Drawn self.now.job.now self.now.entry result }
    {
        AnyJoint::new(
            self.entry.sheet,
            self.job.members.as_slice(),
            self.job.cards.as_slice(),
        )
    }

    // The web joint of a sheet, over the same.
    fn web_joint(&self, sheet: Sheet) -> WebJoint<'a>
        ensures { WebDrawn self.now.job.now sheet result }
    {
        let job = self.job;
        WebJoint::new(sheet, job.members.as_slice(), job.cards.as_slice())
    }

    // The least plate of the job's pile that passes a joint.
    fn picked_for<J: Joint>(&self, joint: &J) -> Result<Picked, Refusal>
        ensures chosen { Chosen (J.standing joint.now) (J.verdict joint.now) (pile_places self.now.job.now) (pile_shows self.now.job.now) (as_choice result) }
        ensures shown { Shown (pile_shows self.now.job.now) result }
    {
        pick(joint, &JobPile::new(self.job))
    }

    // The least plate of the job's pile that passes its joint.
    pub fn picked(&self) -> Result<Picked, Refusal>
        ensures picks { Picks self.now.job.now self.now.entry result }
        ensures web { (s : Sheet) → self.now.entry.sheet ≡ Web s → Fits Webs (said self.now.job.now) → WebPicks self.now.job.now s result }
    {
        match self.entry.sheet {
            // of its own kind, which a joint of any kind would find anew for each plate
            AnySheet::Web(sheet) => self.picked_for(&self.web_joint(sheet)),
            _ => self.picked_for(&self.joint()),
        }
    }

    // The verdict on one plate for its joint.
    pub fn judged(&self, tried: Tried) -> Result<Verdict, Refusal>
        ensures judges { Judges self.now.job.now self.now.entry tried result }
        ensures web { (s : Sheet) → self.now.entry.sheet ≡ Web s → WebJudges self.now.job.now s tried result }
    {
        let joint = self.joint();
        judge(&joint, tried.plate, tried.turning)
    }

    // Why each plate of the pile passes its joint or not.
    pub fn explained(&self, heap: Global) -> Result<Vec<ExplainRow>, NoAccount>
        ensures { MatchResult result (λ v. Explains self.now.job.now self.now.entry v.items) (Unexplained self.now.job.now self.now.entry) }
    {
        let joint = self.joint();
        account(heap, &joint, &JobPile::new(self.job))
    }
}

// The joints of all sheets, in the order of the text. A loop, since of a chain the proof of a joint for
// each sheet did not close.
pub fn joints_of<'a>(heap: Global, job: &'a Job) -> Result<Vec<AnyJoint<'a>>, AllocError>
    ensures { IfOk result (λ v. AllDrawn job.now v.items) }
{
    let mut joints = Vec::new(heap);
    for entry in job.sheets.iter() {
        let sheet = JobSheet { job, entry: *entry };
        joints.push(sheet.joint())?;
    }
    Ok(joints)
}
