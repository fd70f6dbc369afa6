// The block `heel`: the sheet of a heel joint.
ghost use Rattle.std.specs.Prelude.{◌≡◌};
ghost use Rattle.blocks.specs.Heels.{heel_key_word, heel_has, HeelKept, HeelTakes, heel_of};
ghost use Rattle.texts.specs.Words.{Named};

use super::sheets::{SheetDraft, SheetKey};
use joints::HeelSheet;
use rules::FactorRule;
use texts::{Draft, Expected, Fault, Finish, Line, Value, Word};

#[derive(Clone, Copy)]
pub enum HeelKey {
    // a key of every sheet
    Sheet(SheetKey),
    Slope,
    Rule,
}

// What the lines of the block have said so far.
#[derive(Clone, Copy, Default)]
pub struct HeelDraft {
    pub sheet: SheetDraft,
    // rise and run
    pub slope: Option<[u32; 2]>,
    pub rule: Option<FactorRule>,
}

impl Value for HeelKey {
    ghost reads = { Named heel_key_word };

    fn read(word: &str) -> Option<HeelKey> {
        match word {
            "slope" => Some(HeelKey::Slope),
            "rule" => Some(HeelKey::Rule),
            _ => SheetKey::read(word).map(HeelKey::Sheet),
        }
    }

    fn expected() -> Expected {
        Expected::KeyOf {
            block: "heel",
            keys: "members, truss, duration, service, area, turnings, slope, rule or try",
        }
    }
}

impl Word for HeelKey {
    ghost word = { heel_key_word };

    fn word(self) -> &'static str {
        match self {
            HeelKey::Sheet(key) => key.word(),
            HeelKey::Slope => "slope",
            HeelKey::Rule => "rule",
        }
    }
}

impl Draft for HeelDraft {
    type Key = HeelKey;

    ghost has = { heel_has };

    ghost kept = { HeelKept };

    ghost takes = { HeelTakes };

    fn has(&self, key: HeelKey) -> bool {
        match key {
            HeelKey::Sheet(key) => self.sheet.has(key),
            HeelKey::Slope => self.slope.is_some(),
            HeelKey::Rule => self.rule.is_some(),
        }
    }

    fn set(&mut self, key: HeelKey, line: &mut Line) -> Result<(), Fault> {
        match key {
            HeelKey::Sheet(key) => self.sheet.set(key, line)?,
            HeelKey::Slope => self.slope = Some(line.numbers()?),
            HeelKey::Rule => self.rule = Some(line.value()?),
        }
        Ok(())
    }
}

impl Finish for HeelDraft {
    type Whole = HeelSheet;

    ghost whole = { heel_of };

    // The sheet, or the first key that it lacks. It may lack a rule, and a plate to try.
    fn finish(self) -> Result<HeelSheet, HeelKey> {
        let sheet = self.sheet.finish().map_err(HeelKey::Sheet)?;
        let [rise, run] = self.slope.ok_or(HeelKey::Slope)?;
        Ok(HeelSheet {
            sheet,
            rise,
            run,
            rule: self.rule,
        })
    }
}
