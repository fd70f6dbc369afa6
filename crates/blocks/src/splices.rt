// The block `splice`: the sheet of a splice joint.
ghost use Rattle.std.specs.Prelude.{◌≡◌};
ghost use Rattle.blocks.specs.Splices.{splice_key_word, splice_has, SpliceKept, SpliceTakes, splice_of};
ghost use Rattle.texts.specs.Words.{Named};

use super::sheets::{SheetDraft, SheetKey};
use joints::SpliceSheet;
use texts::{Draft, Expected, Fault, Finish, Line, Value, Word};

#[derive(Clone, Copy)]
pub enum SpliceKey {
    // a key of every sheet
    Sheet(SheetKey),
    Moment,
    Wood,
}

// What the lines of the block have said so far.
#[derive(Clone, Copy, Default)]
pub struct SpliceDraft {
    pub sheet: SheetDraft,
    pub moment: Option<u32>,
    pub wood: Option<u32>,
}

impl Value for SpliceKey {
    ghost reads = { Named splice_key_word };

    fn read(word: &str) -> Option<SpliceKey> {
        match word {
            "moment" => Some(SpliceKey::Moment),
            "wood" => Some(SpliceKey::Wood),
            _ => SheetKey::read(word).map(SpliceKey::Sheet),
        }
    }

    fn expected() -> Expected {
        Expected::KeyOf {
            block: "splice",
            keys: "members, truss, duration, service, area, turnings, moment, wood or try",
        }
    }
}

impl Word for SpliceKey {
    ghost word = { splice_key_word };

    fn word(self) -> &'static str {
        match self {
            SpliceKey::Sheet(key) => key.word(),
            SpliceKey::Moment => "moment",
            SpliceKey::Wood => "wood",
        }
    }
}

impl Draft for SpliceDraft {
    type Key = SpliceKey;

    ghost has = { splice_has };

    ghost kept = { SpliceKept };

    ghost takes = { SpliceTakes };

    fn has(&self, key: SpliceKey) -> bool {
        match key {
            SpliceKey::Sheet(key) => self.sheet.has(key),
            SpliceKey::Moment => self.moment.is_some(),
            SpliceKey::Wood => self.wood.is_some(),
        }
    }

    fn set(&mut self, key: SpliceKey, line: &mut Line) -> Result<(), Fault> {
        match key {
            SpliceKey::Sheet(key) => self.sheet.set(key, line)?,
            SpliceKey::Moment => self.moment = Some(line.value()?),
            SpliceKey::Wood => self.wood = Some(line.value()?),
        }
        Ok(())
    }
}

impl Finish for SpliceDraft {
    type Whole = SpliceSheet;

    ghost whole = { splice_of };

    // The sheet, or the first key that it lacks. It may lack a plate to try.
    fn finish(self) -> Result<SpliceSheet, SpliceKey> {
        let sheet = self.sheet.finish().map_err(SpliceKey::Sheet)?;
        Ok(SpliceSheet {
            sheet,
            moment: self.moment.ok_or(SpliceKey::Moment)?,
            wood: self.wood.ok_or(SpliceKey::Wood)?,
        })
    }
}
