// A strike list: a supply some places of which are struck, and show nothing.
ghost use Rattle.std.specs.Prelude.{◌≡◌, take};
ghost use Rattle.supplies.specs.Strikes.{listed, strike_hides, StrikeLaws};

use super::covered::{Covered, Hide};
use plates::Plate;

// The places struck beyond these are not read.
pub const MAX_STRUCK: usize = 32;

// So many are asked in turn.
const IN_TURN: usize = 4;

#[derive(Clone, Copy)]
pub struct Strikes<'a>(pub(crate) &'a [u32]);

pub type StrikeList<'a, S> = Covered<S, Strikes<'a>>;

impl Strikes<'_> {
    // The place is among the first 32: of a few each is asked in turn, of more `contains` asks several at
    // once, which for a few costs more than it saves.
    fn strikes(&self, place: u32) -> bool
        ensures { result ≡ listed (take 32 self.now.0.now) place }
    {
        if self.0.len() <= IN_TURN {
            return self.0.iter().any(|struck| *struck == place);
        }
        let read = MAX_STRUCK.min(self.0.len());
        self.0[..read].contains(&place)
    }
}

impl<'a, S> StrikeList<'a, S> {
    // The supply less the places struck: the others keep their numbers.
    pub fn new(supply: S, struck: &'a [u32]) -> Self
        ensures supply { result.supply ≡ supply }
        ensures struck { result.layer.0.now ≡ struck.now }
        ensures laws { StrikeLaws result.layer.0.now }
    {
        Covered {
            supply,
            layer: Strikes(struck),
        }
    }
}

impl Hide for Strikes<'_> {
    ghost hides = { λ p. strike_hides p.0.now };

    fn hides(&self, place: u32, _plate: Plate) -> bool {
        self.strikes(place)
    }

    // A place is struck whatever plate stands there, so that the supply is not asked for a struck one.
    fn hides_place(&self, place: u32) -> Option<bool> {
        Some(self.strikes(place))
    }
}
