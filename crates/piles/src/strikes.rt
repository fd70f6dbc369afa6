// The block `strike`: a strike list.
ghost use Rattle.std.specs.Prelude.{◌≡◌};
ghost use Rattle.piles.specs.Strikes.{strike_key_word, strike_has, StrikeKept, StrikeTakes, strike_of};
ghost use Rattle.texts.specs.Words.{Named};

use supplies::{Few, Layer, MAX_STRUCK};
use texts::{Draft, Expected, Fault, Finish, Line, Value, Word};

#[derive(Clone, Copy)]
pub enum StrikeKey {
    Places,
}

// What the lines of the block have said so far.
#[derive(Clone, Copy, Default)]
pub struct StrikeDraft {
    pub places: Option<Few<MAX_STRUCK>>,
}

impl Value for StrikeKey {
    ghost reads = { Named strike_key_word };

    fn read(word: &str) -> Option<StrikeKey> {
        match word {
            "places" => Some(StrikeKey::Places),
            _ => None,
        }
    }

    fn expected() -> Expected {
        Expected::KeyOf {
            block: "strike",
            keys: "places",
        }
    }
}

impl Word for StrikeKey {
    ghost word = { strike_key_word };

    fn word(self) -> &'static str {
        match self {
            StrikeKey::Places => "places",
        }
    }
}

impl Draft for StrikeDraft {
    type Key = StrikeKey;

    ghost has = { strike_has };

    ghost kept = { StrikeKept };

    ghost takes = { StrikeTakes };

    fn has(&self, key: StrikeKey) -> bool {
        match key {
            StrikeKey::Places => self.places.is_some(),
        }
    }

    fn set(&mut self, key: StrikeKey, line: &mut Line) -> Result<(), Fault> {
        match key {
            StrikeKey::Places => self.places = Some(line.few()?),
        }
        Ok(())
    }
}

impl Finish for StrikeDraft {
    type Whole = Layer;

    ghost whole = { strike_of };

    // The strike list, or the key that it lacks.
    fn finish(self) -> Result<Layer, StrikeKey> {
        self.places.ok_or(StrikeKey::Places).map(Layer::Strike)
    }
}
