// Layers that are written down as a list, over any supply.
ghost use Rattle.std.specs.Prelude.{◌≡◌};
ghost use Rattle.supplies.specs.Layers.{hidden, hides, LayerLaws};

use super::covered::{Covered, Hide};
use super::few::Few;
use super::limit::Press;
use super::strike::{MAX_STRUCK, Strikes};
use plates::Plate;

// A press limit, or a strike list.
#[derive(Clone, Copy)]
pub enum Layer {
    Press { width: u32, length: u32 },
    Strike(Few<MAX_STRUCK>),
}

// The layers over a supply, of which the first lies lowest.
#[derive(Clone, Copy)]
pub struct Layers<'a>(&'a [Layer]);

pub type Layered<'a, S> = Covered<S, Layers<'a>>;

impl<'a, S> Layered<'a, S> {
    // What is shown is what shows through every layer.
    pub fn new(supply: S, layers: &'a [Layer]) -> Self
        ensures supply { result.supply ≡ supply }
        ensures layers { result.layer.0.now ≡ layers.now }
        ensures laws { LayerLaws result.layer.0.now }
    {
        Covered {
            supply,
            layer: Layers(layers),
        }
    }
}

impl Hide for Layer {
    ghost hides = { hides };

    fn hides(&self, place: u32, plate: Plate) -> bool {
        match self {
            &Layer::Press { width, length } => Press { width, length }.hides(place, plate),
            Layer::Strike(struck) => Strikes(struck.as_slice()).hides(place, plate),
        }
    }
}

impl Hide for Layers<'_> {
    ghost hides = { λ ls. hidden ls.0.now };

    fn hides(&self, place: u32, plate: Plate) -> bool {
        self.0.iter().any(|layer| layer.hides(place, plate))
    }
}
