// A coil cutter: it cuts the plates of one family from coils of a few widths, to lengths
// that rise by equal steps. Its places go width by width, and in each step by step.
ghost use Rattle.std.specs.Prelude.{◌≡◌, ◌^◌, ◌<◌, min, length, take};
ghost use Rattle.std.specs.Option.{SomeIff};
ghost use Rattle.supplies.specs.Coils.{coil_length, coil_places, coil_shows, CoilLaws};

use plates::{Plate, Supply};

// Widths beyond these are not read.
pub const MAX_WIDTHS: usize = 8;

// Steps beyond these are not cut.
const MAX_STEPS: u32 = 64;

#[derive(Clone, Copy)]
pub struct CoilCutter<'a> {
    family: u32,
    widths: &'a [u32],
    first: u32,
    step: u32,
    steps: u32,
}

impl<'a> CoilCutter<'a> {
    // A cutter that cuts each width to `steps` lengths, from `first` on by `step`.
    pub fn new(family: u32, widths: &'a [u32], first: u32, step: u32, steps: u32) -> Self
        ensures family { result.family ≡ family }
        ensures widths { result.widths.now ≡ widths.now }
        ensures first { result.first ≡ first }
        ensures step { result.step ≡ step }
        ensures steps { result.steps ≡ steps }
        ensures laws { CoilLaws result.family result.widths.now result.first result.step result.steps }
    {
        CoilCutter {
            family,
            widths,
            first,
            step,
            steps,
        }
    }

    fn widths_read(&self) -> u32
        ensures { result ≡ length (take 8 self.now.widths.now) }
    {
        self.widths.len().min(MAX_WIDTHS) as u32
    }

    fn steps_read(&self) -> u32
        ensures { result ≡ min self.now.steps 64 }
    {
        self.steps.min(MAX_STEPS)
    }

    // The length after so many steps, or nothing where it is beyond a u32.
    fn length_after(&self, steps: u32) -> Option<u32>
        ensures { SomeIff result (coil_length self.now.first self.now.step steps < 2 ^ 32) (coil_length self.now.first self.now.step steps) }
    {
        let rise = steps.checked_mul(self.step)?;
        self.first.checked_add(rise)
    }
}

impl Supply for CoilCutter<'_> {
    ghost places = { λ c. coil_places c.widths.now c.steps };

    ghost shows = { λ c. coil_shows c.family c.widths.now c.first c.step c.steps };

    fn places(&self) -> u32 {
        self.widths_read() * self.steps_read()
    }

    fn plate(&self, place: u32) -> Option<Plate> {
        if place >= self.places() {
            return None;
        }
        let steps = self.steps_read();
        let width = self.widths[(place / steps) as usize];
        let length = self.length_after(place % steps)?;
        Plate::new(width, length, self.family)
    }
}
