// A maker's list: the plates of the caller's rows, one place a row.
ghost use Rattle.std.specs.Prelude.{◌≡◌};
ghost use Rattle.supplies.specs.Rows.{list_places, list_shows};
ghost use Rattle.supplies.specs.Shown.{AllExist};

use plates::{Plate, Supply};

// A row of a maker's list: plain numbers, of which there may be no plate.
#[derive(Clone, Copy)]
pub struct Row {
    pub width: u32,
    pub length: u32,
    pub family: u32,
}

#[derive(Clone, Copy)]
pub struct MakersList<'a> {
    rows: &'a [Row],
}

impl<'a> MakersList<'a> {
    pub fn new(rows: &'a [Row]) -> Self
        ensures rows { result.rows.now ≡ rows.now }
        ensures exist { AllExist (list_shows result.rows.now) }
    {
        MakersList { rows }
    }
}

impl Supply for MakersList<'_> {
    ghost places = { λ s. list_places s.rows.now };

    ghost shows = { λ s. list_shows s.rows.now };

    fn places(&self) -> u32 {
        self.rows.len().min(u32::MAX as usize) as u32
    }

    fn plate(&self, place: u32) -> Option<Plate> {
        if place >= self.places() {
            return None;
        }
        let row = self.rows[place as usize];
        Plate::new(row.width, row.length, row.family)
    }
}
