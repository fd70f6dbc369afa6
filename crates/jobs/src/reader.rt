// The whole text, line by line and block by block.
ghost use Rattle.std.specs.Prelude.{◌≡◌, true, false, IfOk, codes, MatchResult, OnOk};
ghost use Rattle.std.specs.Result.{IfErr};
ghost use Rattle.texts.specs.Faults.{At};
ghost use Rattle.texts.specs.Lines.{rest};
ghost use Rattle.jobs.specs.Fits.{Fits};
ghost use Rattle.jobs.specs.Reading.{Ended, RowSaid, said, started, with_sheet};
ghost use Rattle.jobs.specs.Texts.{Belongs, JobOf, Opened, Step, Stocked, nothing_said, state};
ghost use Rattle.jobs.specs.declared.reader.Open.TheVariants.{Nothing};

use super::openers::{Block, Format};
use blocks::{CardDraft, HeelDraft, MemberDraft, SheetDraft, SpliceDraft, Tried};
use joints::AnySheet;
use piles::{Coil, CoilDraft, PressDraft, StrikeDraft};
use rules::{Card, Member};
use std::alloc::Global;
use supplies::{Layer, Row};
use texts::{Expected, Fault, Found, Line, Value, Word, whole, with_line};

// A sheet of the text: the line that opens it, what it says, the plate to try, and its block. In this
// order it takes the least memory.
#[derive(Clone, Copy)]
pub struct Entry {
    pub line: usize,
    pub sheet: AnySheet,
    pub tried: Option<Tried>,
    pub block: Block,
}

// What the text says, each list in the order of the text. The plates are those of the coil, or
// of the rows where there is none, under the layers.
#[derive(Drop)]
pub struct Job {
    pub cards: Vec<Card>,
    pub members: Vec<Member>,
    pub sheets: Vec<Entry>,
    pub rows: Vec<Row>,
    pub coil: Option<Coil>,
    pub layers: Vec<Layer>,
}

// The block that the lines belong to.
#[derive(Clone, Copy)]
enum Open {
    Nothing,
    Card(CardDraft),
    Member(MemberDraft),
    Web(SheetDraft),
    Heel(HeelDraft),
    Splice(SpliceDraft),
    List,
    Coil(CoilDraft),
    Press(PressDraft),
    Strike(StrikeDraft),
}

#[derive(Drop)]
struct Reader {
    job: Job,
    block: Open,
    // the line that opened the block
    opened: usize,
    // a list, which may be empty, or a coil has come
    stocked: bool,
}

impl Reader {
    fn new(heap: Global) -> Reader
        ensures { state result ≡ nothing_said }
    {
        let job = Job {
            cards: Vec::new(heap),
            members: Vec::new(heap),
            sheets: Vec::new(heap),
            rows: Vec::new(heap),
            coil: None,
            layers: Vec::new(heap),
        };
        Reader {
            job,
            block: Open::Nothing,
            opened: 0,
            stocked: false,
        }
    }

    // One line: the opener of a block, a key of the open block, or nothing.
    fn take(&mut self, format: Format, line: &mut Line) -> Result<(), Fault>
        ensures { OnOk result (Step format line.old.number (rest line.old) (state self.old) (state self.new)) }
    {
        let Some(word) = line.word() else {
            return Ok(());
        };
        match format.opens(word) {
            Some(block) => self.open(format, block, line)?,
            None => self.key(format, word, line)?,
        }
        line.end()?;
        Ok(())
    }

    // The next block begins where the open one ends.
    fn open(&mut self, format: Format, block: Block, line: &Line) -> Result<(), Fault>
        ensures { OnOk result (Opened line.now.number block (state self.old) (state self.new)) }
    {
        self.close()?;
        self.start(format, block, line)
    }

    fn start(&mut self, format: Format, block: Block, line: &Line) -> Result<(), Fault>
        ensures block { OnOk result (self.new.block ≡ started block) }
        ensures opened { OnOk result (self.new.opened ≡ line.now.number) }
        ensures stocked { OnOk result (Stocked block self.old.stocked self.new.stocked) }
        ensures job { said self.new.job ≡ said self.old.job }
    {
        self.opened = line.number();
        self.block = match block {
            Block::Card => Open::Card(CardDraft::default()),
            Block::Member => Open::Member(MemberDraft::default()),
            Block::Web => Open::Web(SheetDraft::default()),
            Block::Heel => Open::Heel(HeelDraft::default()),
            Block::Splice => Open::Splice(SpliceDraft::default()),
            Block::List => {
                self.stock(format, block, line)?;
                Open::List
            }
            Block::Coil => {
                self.stock(format, block, line)?;
                Open::Coil(CoilDraft::default())
            }
            Block::Press => Open::Press(PressDraft::default()),
            Block::Strike => Open::Strike(StrikeDraft::default()),
        };
        Ok(())
    }

    // There is one list or coil at most.
    fn stock(&mut self, format: Format, block: Block, line: &Line) -> Result<(), Fault>
        ensures first { MatchResult result (λ _. self.old.stocked ≡ false) (λ _. self.old.stocked ≡ true) }
        ensures stocked { self.new.stocked ≡ true }
        ensures opened { self.new.opened ≡ self.old.opened }
        ensures job { self.new.job ≡ self.old.job }
    {
        if self.stocked {
            return Err(line.fault(Found::Keyword(block.word()), format.stock()));
        }
        self.stocked = true;
        Ok(())
    }

    fn key(&mut self, format: Format, word: &str, line: &mut Line) -> Result<(), Fault>
        ensures { OnOk result (Belongs word.now (rest line.old) (rest line.new) (state self.old) (state self.new)) }
    {
        match self.block {
            Open::Nothing => return Err(line.wrong(word, format.openers())),
            Open::Card(draft) => self.block = Open::Card(with_line(draft, word, line)?),
            Open::Member(draft) => self.block = Open::Member(with_line(draft, word, line)?),
            Open::Web(draft) => self.block = Open::Web(with_line(draft, word, line)?),
            Open::Heel(draft) => self.block = Open::Heel(with_line(draft, word, line)?),
            Open::Splice(draft) => self.block = Open::Splice(with_line(draft, word, line)?),
            Open::List => self.job.rows.push(plate_row(word, line)?)?,
            Open::Coil(draft) => self.block = Open::Coil(with_line(draft, word, line)?),
            Open::Press(draft) => self.block = Open::Press(with_line(draft, word, line)?),
            Open::Strike(draft) => self.block = Open::Strike(with_line(draft, word, line)?),
        }
        Ok(())
    }

    // Ends the open block: what it says joins the job.
    fn close(&mut self) -> Result<(), Fault>
        ensures block { OnOk result (self.new.block ≡ Nothing) }
        ensures stocked { self.new.stocked ≡ self.old.stocked }
        ensures job { OnOk result (Ended self.old.block self.old.opened (said self.old.job) (said self.new.job)) }
        ensures lacks { IfErr result (At self.old.opened) }
    {
        let opened = self.opened;
        match self.block {
            Open::Nothing => {}
            Open::Card(draft) => self.job.cards.push(whole(draft, Block::Card, opened)?)?,
            Open::Member(draft) => self.job.members.push(whole(draft, Block::Member, opened)?)?,
            Open::Web(draft) => {
                let sheet = AnySheet::Web(whole(draft, Block::Web, opened)?);
                self.enter(Block::Web, sheet, draft.tried)?
            }
            Open::Heel(draft) => {
                let sheet = AnySheet::Heel(whole(draft, Block::Heel, opened)?);
                self.enter(Block::Heel, sheet, draft.sheet.tried)?
            }
            Open::Splice(draft) => {
                let sheet = AnySheet::Splice(whole(draft, Block::Splice, opened)?);
                self.enter(Block::Splice, sheet, draft.sheet.tried)?
            }
            Open::List => {}
            Open::Coil(draft) => self.job.coil = Some(whole(draft, Block::Coil, opened)?),
            Open::Press(draft) => self.job.layers.push(whole(draft, Block::Press, opened)?)?,
            Open::Strike(draft) => self.job.layers.push(whole(draft, Block::Strike, opened)?)?,
        }
        self.block = Open::Nothing;
        Ok(())
    }

    // One more sheet.
    fn enter(&mut self, block: Block, sheet: AnySheet, tried: Option<Tried>) -> Result<(), Fault>
        ensures stocked { self.new.stocked ≡ self.old.stocked }
        ensures job { OnOk result (said self.new.job ≡ with_sheet (said self.old.job) (record { line = self.old.opened; block = block; sheet = sheet; tried = tried })) }
        ensures short { IfErr result (At self.old.opened) }
    {
        self.job.sheets.push(Entry {
            line: self.opened,
            block,
            sheet,
            tried,
        })?;
        Ok(())
    }
}

// A line of the maker's list: width, length and family.
fn plate_row(word: &str, line: &mut Line) -> Result<Row, Fault>
    ensures word { OnOk result (word.now ≡ codes "plate") }
    ensures row { IfOk result (λ x. RowSaid (rest line.old) (rest line.new) x) }
{
    if word != "plate" {
        let expected = Expected::KeyOf {
            block: "list",
            keys: "plate",
        };
        return Err(line.wrong(word, expected));
    }
    let [width, length, family] = line.numbers::<3>()?;
    Ok(Row {
        width,
        length,
        family,
    })
}

// The job of a text in the format, or its first fault.
pub fn read(heap: Global, format: Format, text: &str) -> Result<Job, Fault>
    ensures job { IfOk result (λ job. JobOf format text.now (said job)) }
    ensures fits { IfOk result (λ job. Fits format (said job)) }
{
    let mut reader = Reader::new(heap);
    for (index, line) in text.lines().enumerate() {
        reader.take(format, &mut Line::new(heap, index + 1, line))?;
    }
    reader.close()?;
    let Reader {
        job,
        block: _,
        opened: _,
        stocked: _,
    } = reader;
    Ok(job)
}
