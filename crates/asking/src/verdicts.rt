// The verdicts that the sheets of a job ask for.
ghost use Rattle.std.specs.Prelude.{◌≡◌, MatchResult};
ghost use Rattle.texts.specs.Faults.{at_line};
ghost use Rattle.asking.specs.Verdicts.{AllJudged, Untried};

use super::sheets::JobSheet;
use jobs::{Entry, Job};
use plates::{Refusal, Verdict};
use std::alloc::Global;
use texts::{Expected, Fault, Found, Mismatch, Word};

pub type Judgement = Result<Verdict, Refusal>;

// In the order of the sheets. Each has to name a plate to try: a loop, which ends at the first that
// names none.
pub fn judgements(heap: Global, job: &Job) -> Result<Vec<Judgement>, Fault>
    ensures { MatchResult result (λ v. AllJudged job.now job.now.sheets.items v.items) (Untried job.now.sheets.items) }
{
    let mut all = Vec::new(heap);
    for entry in job.sheets.iter() {
        let Some(tried) = entry.tried else {
            return Err(untried(entry));
        };
        let sheet = JobSheet { job, entry: *entry };
        all.push(sheet.judged(tried))?;
    }
    Ok(all)
}

// The fault of a sheet that names no plate, at the line that opens it.
fn untried(entry: &Entry) -> Fault
    ensures { at_line result ≡ entry.now.line }
{
    let mismatch = Mismatch {
        found: Found::Keyword(entry.block.word()),
        expected: Expected::Lacking("try"),
    };
    Fault::Format {
        line: entry.line,
        mismatch,
    }
}
