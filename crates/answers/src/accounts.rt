// Why each plate of a pile passes the joint of a sheet or not, row by row.
ghost use Rattle.std.specs.Prelude.{◌≡◌};
ghost use Rattle.jobs.specs.Fits.{Fits};
ghost use Rattle.jobs.specs.Reading.{said};
ghost use Rattle.answers.specs.Tallies.{ends, tally};

use super::failures::Cause;
use super::wording::Refused;
use asking::{JobPile, JobSheet, NoAccount};
use choice::ExplainRow;
use jobs::{Format, Job};
use plates::{Clause, Plate, Supply, Verdict};
use std::{fmt, io};

// Lines for people, or values for a spreadsheet.
#[derive(Clone, Copy)]
pub enum Form {
    Words,
    Csv,
}

// A row of the account of a sheet, with its plate.
#[derive(Clone, Copy)]
struct Line {
    sheet: usize,
    plate: Plate,
    row: ExplainRow,
}

// The same, as values.
#[derive(Clone, Copy)]
struct Values(Line);

// How many rows of an account each clause stopped.
#[derive(Drop)]
struct Counts<'a>(&'a [ExplainRow]);

const CLAUSES: [Clause; 11] = [
    Clause::Turning,
    Clause::Card,
    Clause::Teeth,
    Clause::Bite,
    Clause::CrossGrain,
    Clause::Grip,
    Clause::Tension,
    Clause::Shear,
    Clause::Slip,
    Clause::Extent,
    Clause::Moment,
];

const HEADER: &str = "sheet,place,width,length,family,turning,letter,member,words";

// The account of every sheet, in the order of the text.
pub(crate) fn explain_all(
    rt: &HostRuntime,
    format: Format,
    job: &Job,
    form: Form,
) -> Result<(), Cause>
    requires { Fits format (said job.now) }
{
    if let Form::Csv = form {
        println!(rt; "{HEADER}")?;
    }
    for (sheet, entry) in (1usize..).zip(job.sheets.iter()) {
        let asked = JobSheet { job, entry: *entry };
        match asked.explained(rt.alloc()) {
            Ok(rows) => write_account(rt, job, sheet, rows.as_slice(), form)?,
            Err(NoAccount::Refused(refusal)) => write_last(
                rt,
                sheet,
                Refused { refusal, format },
                form,
            )?,
            Err(NoAccount::Memory) => return Err(Cause::Memory),
        }
    }
    Ok(())
}

// The rows, then how many of them each clause stopped.
fn write_account(
    rt: &HostRuntime,
    job: &Job,
    sheet: usize,
    rows: &[ExplainRow],
    form: Form,
) -> io::Result<()> {
    let pile = JobPile::new(job);
    for row in rows.iter() {
        // a row tells of a plate that its place shows
        if let Some(plate) = pile.plate(row.place) {
            let line = Line {
                sheet,
                plate,
                row: *row,
            };
            match form {
                Form::Words => println!(rt; "{line}")?,
                Form::Csv => println!(rt; "{}", Values(line))?,
            }
        }
    }
    write_last(rt, sheet, Counts(rows), form)
}

// The line that ends the account of a sheet.
fn write_last<T: fmt::Display + Drop>(
    rt: &HostRuntime,
    sheet: usize,
    said: T,
    form: Form,
) -> io::Result<()> {
    match form {
        Form::Words => println!(rt; "sheet {sheet} {said}"),
        Form::Csv => println!(rt; "{sheet},,,,,,,,\"{said}\""),
    }
}

impl fmt::Display for Line {
    fn fmt<W: fmt::Write>(&self, f: &mut fmt::Formatter<W>) -> fmt::Result {
        let sheet = self.sheet;
        let place = self.row.place;
        let turning = self.row.turning;
        write!(
            f,
            "sheet {sheet} place {place} {turning} {} {}",
            self.plate, self.row.verdict
        )
    }
}

impl fmt::Display for Values {
    fn fmt<W: fmt::Write>(&self, f: &mut fmt::Formatter<W>) -> fmt::Result {
        let line = self.0;
        let plate = line.plate;
        let turning = line.row.turning;
        write!(f, "{},{},", line.sheet, line.row.place)?;
        write!(f, "{},{},", plate.width(), plate.length())?;
        write!(f, "{},{turning},", plate.family())?;
        match line.row.verdict {
            Verdict::Passes => f.write_str(",,passes"),
            Verdict::Misses { clause, member: 0 } => write!(f, "{},0,{clause}", clause.letter()),
            Verdict::Misses { clause, member } => write!(
                f,
                "{},{member},\"{clause}, member {member}\"",
                clause.letter()
            ),
        }
    }
}

impl fmt::Display for Counts<'_> {
    fn fmt<W: fmt::Write>(&self, f: &mut fmt::Formatter<W>) -> fmt::Result {
        f.write_str("stopped")?;
        for clause in CLAUSES {
            write!(f, " {} {}", clause.letter(), count(self.0, Some(clause)))?;
        }
        write!(f, " passed {}", count(self.0, None))
    }
}

// How many of the rows the clause stopped, or how many pass.
fn count(rows: &[ExplainRow], clause: Option<Clause>) -> usize
    ensures { result ≡ tally clause rows.now }
{
    rows.iter()
        .filter(|row| ends_so(row.verdict, clause))
        .count()
}

// The verdict names this clause, or none where it passes.
fn ends_so(verdict: Verdict, named: Option<Clause>) -> bool
    ensures { result ≡ ends named verdict }
{
    match (verdict, named) {
        (Verdict::Passes, None) => true,
        (Verdict::Misses { clause, .. }, Some(named)) => clause == named,
        _ => false,
    }
}
