// The two interfaces that the engine is generic in. Their ghost members say what an
// implementation means, and generic code is proved once against that meaning.
ghost use Rattle.std.specs.Prelude.{◌≡◌, ℕ, ◌≤◌, None, Ok, Option, Result};
ghost use Rattle.std.specs.Option.{option_map};
ghost use Rattle.plates.specs.Size.{Size, size};
ghost use Rattle.plates.specs.Refusals.{Grounded};
ghost use Rattle.plates.specs.declared.refusals.Refusal.{Refusal};
ghost use Rattle.plates.specs.declared.turnings.Turning.{Turning};
ghost use Rattle.plates.specs.declared.verdicts.Verdict.{Verdict};

use super::refusals::Refusal;
use super::shape::Plate;
use super::turnings::Turning;
use super::verdicts::Verdict;

// A supply: a number of places and, at each, one plate or nothing. Asking alters neither.
pub trait Supply {
    ghost places: { Self → ℕ };

    ghost shows: { Self → ℕ → Option Size };

    // How many places there are: from that number on nothing is shown.
    fn places(&self) -> u32
        ensures value { result ≡ places self.now }
        ensures beyond { (k : ℕ) → places self.now ≤ k → shows self.now k ≡ None };

    fn plate(&self, place: u32) -> Option<Plate>
        ensures { option_map size result ≡ shows self.now place };
}

// A joint: its standing, lawful or one of the refusals 1 to 4, and when it is lawful
// one verdict for each plate and turning, the same whenever it is asked.
pub trait Joint {
    ghost standing: { Self → Result (Unit {0}) Refusal };

    ghost verdict: { Self → Size → Turning → Verdict };

    fn standing(&self) -> Result<(), Refusal>
        ensures value { result ≡ standing self.now }
        ensures grounded { Grounded (standing self.now) };

    fn verdict(&self, plate: Plate, turning: Turning) -> Verdict
        requires { standing self.now ≡ Ok tt }
        ensures { result ≡ verdict self.now (size plate) turning };
}
