// A press limit: a supply without the plates that are too wide or too long for the press.
ghost use Rattle.std.specs.Prelude.{◌≡◌};
ghost use Rattle.supplies.specs.Limits.{limit_hides, LimitLaws};

use super::covered::{Covered, Hide};
use plates::Plate;

// The widest and the longest that the press takes.
#[derive(Clone, Copy)]
pub struct Press {
    pub(crate) width: u32,
    pub(crate) length: u32,
}

pub type PressLimit<S> = Covered<S, Press>;

impl<S> PressLimit<S> {
    // The supply less the plates wider than `width` or longer than `length`.
    pub fn new(supply: S, width: u32, length: u32) -> Self
        ensures supply { result.supply ≡ supply }
        ensures width { result.layer.width ≡ width }
        ensures length { result.layer.length ≡ length }
        ensures laws { LimitLaws result.layer.width result.layer.length }
    {
        Covered {
            supply,
            layer: Press { width, length },
        }
    }
}

impl Hide for Press {
    ghost hides = { λ p. limit_hides p.width p.length };

    fn hides(&self, _place: u32, plate: Plate) -> bool {
        plate.width() > self.width || plate.length() > self.length
    }
}
