// The block `coil`: a coil cutter.
ghost use Rattle.std.specs.Prelude.{◌≡◌};
ghost use Rattle.piles.specs.Coils.{coil_key_word, coil_has, CoilKept, CoilTakes, coil_of, coil_widths};
ghost use Rattle.texts.specs.Words.{Named};

use supplies::{CoilCutter, Few, MAX_WIDTHS};
use texts::{Draft, Expected, Fault, Finish, Line, Value, Word};

#[derive(Clone, Copy)]
pub enum CoilKey {
    Family,
    Widths,
    First,
    Step,
    Steps,
}

// What the lines of the block have said so far.
#[derive(Clone, Copy, Default)]
pub struct CoilDraft {
    pub family: Option<u32>,
    pub widths: Option<Few<MAX_WIDTHS>>,
    pub first: Option<u32>,
    pub step: Option<u32>,
    pub steps: Option<u32>,
}

// The numbers of a coil cutter.
#[derive(Clone, Copy)]
pub struct Coil {
    pub family: u32,
    pub widths: Few<MAX_WIDTHS>,
    pub first: u32,
    pub step: u32,
    pub steps: u32,
}

impl Value for CoilKey {
    ghost reads = { Named coil_key_word };

    fn read(word: &str) -> Option<CoilKey> {
        match word {
            "family" => Some(CoilKey::Family),
            "widths" => Some(CoilKey::Widths),
            "first" => Some(CoilKey::First),
            "step" => Some(CoilKey::Step),
            "steps" => Some(CoilKey::Steps),
            _ => None,
        }
    }

    fn expected() -> Expected {
        Expected::KeyOf {
            block: "coil",
            keys: "family, widths, first, step or steps",
        }
    }
}

impl Word for CoilKey {
    ghost word = { coil_key_word };

    fn word(self) -> &'static str {
        match self {
            CoilKey::Family => "family",
            CoilKey::Widths => "widths",
            CoilKey::First => "first",
            CoilKey::Step => "step",
            CoilKey::Steps => "steps",
        }
    }
}

impl Draft for CoilDraft {
    type Key = CoilKey;

    ghost has = { coil_has };

    ghost kept = { CoilKept };

    ghost takes = { CoilTakes };

    fn has(&self, key: CoilKey) -> bool {
        match key {
            CoilKey::Family => self.family.is_some(),
            CoilKey::Widths => self.widths.is_some(),
            CoilKey::First => self.first.is_some(),
            CoilKey::Step => self.step.is_some(),
            CoilKey::Steps => self.steps.is_some(),
        }
    }

    fn set(&mut self, key: CoilKey, line: &mut Line) -> Result<(), Fault> {
        match key {
            CoilKey::Family => self.family = Some(line.value()?),
            CoilKey::Widths => self.widths = Some(line.few()?),
            CoilKey::First => self.first = Some(line.value()?),
            CoilKey::Step => self.step = Some(line.value()?),
            CoilKey::Steps => self.steps = Some(line.value()?),
        }
        Ok(())
    }
}

impl Finish for CoilDraft {
    type Whole = Coil;

    ghost whole = { coil_of };

    // The coil, or the first key that it lacks.
    fn finish(self) -> Result<Coil, CoilKey> {
        Ok(Coil {
            family: self.family.ok_or(CoilKey::Family)?,
            widths: self.widths.ok_or(CoilKey::Widths)?,
            first: self.first.ok_or(CoilKey::First)?,
            step: self.step.ok_or(CoilKey::Step)?,
            steps: self.steps.ok_or(CoilKey::Steps)?,
        })
    }
}

impl Coil {
    // The cutter of these numbers.
    pub fn cutter(&self) -> CoilCutter<'_>
        ensures family { result.family ≡ self.now.family }
        ensures widths { result.widths.now ≡ coil_widths self.now }
        ensures first { result.first ≡ self.now.first }
        ensures step { result.step ≡ self.now.step }
        ensures steps { result.steps ≡ self.now.steps }
    {
        CoilCutter::new(
            self.family,
            self.widths.as_slice(),
            self.first,
            self.step,
            self.steps,
        )
    }
}
