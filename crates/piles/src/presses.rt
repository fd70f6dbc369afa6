// The block `press`: a press limit.
ghost use Rattle.std.specs.Prelude.{◌≡◌};
ghost use Rattle.piles.specs.Presses.{press_key_word, press_has, PressKept, PressTakes, press_of};
ghost use Rattle.texts.specs.Words.{Named};

use supplies::Layer;
use texts::{Draft, Expected, Fault, Finish, Line, Value, Word};

#[derive(Clone, Copy)]
pub enum PressKey {
    Width,
    Length,
}

// What the lines of the block have said so far.
#[derive(Clone, Copy, Default)]
pub struct PressDraft {
    pub width: Option<u32>,
    pub length: Option<u32>,
}

impl Value for PressKey {
    ghost reads = { Named press_key_word };

    fn read(word: &str) -> Option<PressKey> {
        match word {
            "width" => Some(PressKey::Width),
            "length" => Some(PressKey::Length),
            _ => None,
        }
    }

    fn expected() -> Expected {
        Expected::KeyOf {
            block: "press",
            keys: "width or length",
        }
    }
}

impl Word for PressKey {
    ghost word = { press_key_word };

    fn word(self) -> &'static str {
        match self {
            PressKey::Width => "width",
            PressKey::Length => "length",
        }
    }
}

impl Draft for PressDraft {
    type Key = PressKey;

    ghost has = { press_has };

    ghost kept = { PressKept };

    ghost takes = { PressTakes };

    fn has(&self, key: PressKey) -> bool {
        match key {
            PressKey::Width => self.width.is_some(),
            PressKey::Length => self.length.is_some(),
        }
    }

    fn set(&mut self, key: PressKey, line: &mut Line) -> Result<(), Fault> {
        match key {
            PressKey::Width => self.width = Some(line.value()?),
            PressKey::Length => self.length = Some(line.value()?),
        }
        Ok(())
    }
}

impl Finish for PressDraft {
    type Whole = Layer;

    ghost whole = { press_of };

    // The press limit, or the first key that it lacks.
    fn finish(self) -> Result<Layer, PressKey> {
        Ok(Layer::Press {
            width: self.width.ok_or(PressKey::Width)?,
            length: self.length.ok_or(PressKey::Length)?,
        })
    }
}
