// The block `card`: a family's card.
ghost use Rattle.std.specs.Prelude.{◌≡◌};
ghost use Rattle.blocks.specs.Cards.{card_key_word, card_has, CardKept, CardTakes, card_of, in_order};
ghost use Rattle.texts.specs.Words.{Named};

use rules::{Card, Lateral};
use texts::{Draft, Expected, Fault, Finish, Line, Value, Word};

#[derive(Clone, Copy)]
pub enum CardKey {
    Teeth,
    Slip,
    Tension,
    Shear,
    Tooth,
}

// What the lines of the block have said so far.
#[derive(Clone, Copy, Default)]
pub struct CardDraft {
    pub teeth: Option<Lateral>,
    pub slip: Option<Lateral>,
    // t0 and t90
    pub tension: Option<[u32; 2]>,
    pub shear: Option<[u32; 6]>,
    pub tooth: Option<u32>,
}

impl Value for CardKey {
    ghost reads = { Named card_key_word };

    fn read(word: &str) -> Option<CardKey> {
        match word {
            "teeth" => Some(CardKey::Teeth),
            "slip" => Some(CardKey::Slip),
            "tension" => Some(CardKey::Tension),
            "shear" => Some(CardKey::Shear),
            "tooth" => Some(CardKey::Tooth),
            _ => None,
        }
    }

    fn expected() -> Expected {
        Expected::KeyOf {
            block: "card",
            keys: "teeth, slip, tension, shear or tooth",
        }
    }
}

impl Word for CardKey {
    ghost word = { card_key_word };

    fn word(self) -> &'static str {
        match self {
            CardKey::Teeth => "teeth",
            CardKey::Slip => "slip",
            CardKey::Tension => "tension",
            CardKey::Shear => "shear",
            CardKey::Tooth => "tooth",
        }
    }
}

impl Draft for CardDraft {
    type Key = CardKey;

    ghost has = { card_has };

    ghost kept = { CardKept };

    ghost takes = { CardTakes };

    fn has(&self, key: CardKey) -> bool {
        match key {
            CardKey::Teeth => self.teeth.is_some(),
            CardKey::Slip => self.slip.is_some(),
            CardKey::Tension => self.tension.is_some(),
            CardKey::Shear => self.shear.is_some(),
            CardKey::Tooth => self.tooth.is_some(),
        }
    }

    fn set(&mut self, key: CardKey, line: &mut Line) -> Result<(), Fault> {
        match key {
            CardKey::Teeth => self.teeth = Some(lateral_of(line.numbers()?)),
            CardKey::Slip => self.slip = Some(lateral_of(line.numbers()?)),
            CardKey::Tension => self.tension = Some(line.numbers()?),
            CardKey::Shear => self.shear = Some(line.numbers()?),
            CardKey::Tooth => self.tooth = Some(line.value()?),
        }
        Ok(())
    }
}

impl Finish for CardDraft {
    type Whole = Card;

    ghost whole = { card_of };

    // The card, or the first key that it lacks.
    fn finish(self) -> Result<Card, CardKey> {
        let teeth = self.teeth.ok_or(CardKey::Teeth)?;
        let slip = self.slip.ok_or(CardKey::Slip)?;
        let [t0, t90] = self.tension.ok_or(CardKey::Tension)?;
        let shear = self.shear.ok_or(CardKey::Shear)?;
        let tooth = self.tooth.ok_or(CardKey::Tooth)?;
        Ok(Card {
            teeth,
            slip,
            t0,
            t90,
            shear,
            tooth,
        })
    }
}

// In the order of the text: p, q, p' and q'.
fn lateral_of(values: [u32; 4]) -> Lateral
    ensures { result ≡ in_order values }
{
    let [p, q, pt, qt] = values;
    Lateral { p, q, pt, qt }
}
