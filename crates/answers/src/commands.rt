// The commands of a bench, each over a whole text: what is asked of a job has the format of the bench.
ghost use Rattle.jobs.specs.Fits.{Fits};
ghost use Rattle.jobs.specs.Reading.{said};

use super::accounts::{Form, explain_all};
use super::failures::{Cause, Source, text_of};
use super::wording::Refused;
use asking::{JobSheet, judgements};
use jobs::{Format, Job};
use plates::Refusal;
use std::{fmt, io};

// What is asked of a text.
#[derive(Clone, Copy)]
pub enum Command {
    Choose,
    Judge,
    Explain(Form),
}

// Reads the text and writes an answer for each of its sheets, or none where the text is at fault.
pub fn answer(
    rt: &HostRuntime,
    format: Format,
    command: Command,
    source: &Source,
) -> Result<(), Cause> {
    let text = text_of(rt, source)?;
    let job = jobs::read(rt.alloc(), format, text.as_str()).map_err(Cause::Text)?;
    match command {
        Command::Choose => choose_all(rt, format, &job)?,
        Command::Explain(form) => explain_all(rt, format, &job, form)?,
        Command::Judge => judge_all(rt, format, &job)?,
    }
    Ok(())
}

fn choose_all(rt: &HostRuntime, format: Format, job: &Job) -> io::Result<()>
    requires { Fits format (said job.now) }
{
    for (sheet, entry) in (1usize..).zip(job.sheets.iter()) {
        let asked = JobSheet { job, entry: *entry };
        tell(rt, format, sheet, asked.picked())?;
    }
    Ok(())
}

// Nothing is written where a sheet names no plate.
fn judge_all(rt: &HostRuntime, format: Format, job: &Job) -> Result<(), Cause>
    requires { Fits format (said job.now) }
{
    let all = judgements(rt.alloc(), job).map_err(Cause::Text)?;
    for (sheet, judgement) in (1usize..).zip(all) {
        tell(rt, format, sheet, judgement)?;
    }
    Ok(())
}

// One line a sheet, in the order of the text; sheets are counted from 1.
fn tell<T: fmt::Display + Drop>(
    rt: &HostRuntime,
    format: Format,
    sheet: usize,
    answer: Result<T, Refusal>,
) -> io::Result<()> {
    match answer {
        Ok(answer) => println!(rt; "sheet {sheet} {answer}"),
        Err(refusal) => println!(rt; "sheet {sheet} {}", Refused { refusal, format }),
    }
}
