// A supply covered by a layer, which hides some of its plates: the places keep their numbers.
ghost use Rattle.std.specs.Prelude.{◌≡◌, ℕ, Bool, option_map};
ghost use Rattle.std.specs.Option.{IfSome};
ghost use Rattle.plates.specs.Size.{Size, size};
ghost use Rattle.supplies.specs.Hiding.{unhidden, unless};

use plates::{Plate, Supply};

// What hides plates, by the place and the plate.
pub trait Hide {
    ghost hides: { Self → ℕ → Size → Bool };

    // The layer hides this plate at this place.
    fn hides(&self, place: u32, plate: Plate) -> bool
        ensures { result ≡ hides self.now place (size plate) };

    // Whether the layer hides whatever plate stands at the place, or hides none there. It may leave that open.
    fn hides_place(&self, place: u32) -> Option<bool>
        ensures { IfSome result (λ hidden. (s : Size) → hides self.now place s ≡ hidden) }
    {
        None
    }
}

// What is seen through a layer. The method has a type parameter: in `Hide` it would keep a layer from being
// lent as `&dyn Hide`, and a layer that holds a function would have to write it.
pub trait Through: Hide {
    // What the supply shows at the place through the layer. Where the layer says that it hides the place,
    // the supply is not asked.
    fn through<S: Supply>(&self, supply: &S, place: u32) -> Option<Plate>
        ensures { option_map size result ≡ unless (Self.hides self.now place) (S.shows supply.now place) };
}

impl<L: Hide> Through for L {
    fn through<S: Supply>(&self, supply: &S, place: u32) -> Option<Plate> {
        match self.hides_place(place) {
            Some(true) => None,
            Some(false) => supply.plate(place),
            None => supply
                .plate(place)
                .filter(|plate| !self.hides(place, *plate)),
        }
    }
}

#[derive(Drop)]
pub struct Covered<S, L> {
    pub(crate) supply: S,
    pub(crate) layer: L,
}

impl<S: Supply, L: Hide> Supply for Covered<S, L> {
    ghost places = { λ u. S.places u.supply };

    ghost shows = { λ u. unhidden (L.hides u.layer) (S.shows u.supply) };

    fn places(&self) -> u32 {
        self.supply.places()
    }

    fn plate(&self, place: u32) -> Option<Plate> {
        self.layer.through(&self.supply, place)
    }
}
