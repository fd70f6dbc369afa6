// The plates of a job: what its list or its coil shows through its layers.
ghost use Rattle.std.specs.Prelude.{◌≡◌};
ghost use Rattle.supplies.specs.Layers.{layered_shows};
ghost use Rattle.asking.specs.Piles.{stock_places, stock_shows};

use jobs::Job;
use piles::Coil;
use plates::{Plate, Supply};
use supplies::{Layer, Layered, MakersList, Row};

// It matches on the coil, since the two stocks are two types and no `dyn` may be handed out.
#[derive(Clone, Copy)]
pub struct JobPile<'a> {
    coil: Option<Coil>,
    rows: &'a [Row],
    layers: &'a [Layer],
}

impl<'a> JobPile<'a> {
    pub fn new(job: &'a Job) -> Self
        ensures coil { result.coil ≡ job.now.coil }
        ensures rows { result.rows.now ≡ job.now.rows.items }
        ensures layers { result.layers.now ≡ job.now.layers.items }
    {
        JobPile {
            coil: job.coil,
            rows: job.rows.as_slice(),
            layers: job.layers.as_slice(),
        }
    }
}

impl Supply for JobPile<'_> {
    ghost places = { λ p. stock_places p.coil p.rows.now };

    ghost shows = { λ p. layered_shows p.layers.now (stock_shows p.coil p.rows.now) };

    fn places(&self) -> u32 {
        match &self.coil {
            Some(coil) => {
                let cutter = coil.cutter();
                cutter.places()
            }
            None => {
                let list = MakersList::new(self.rows);
                list.places()
            }
        }
    }

    fn plate(&self, place: u32) -> Option<Plate> {
        match &self.coil {
            Some(coil) => {
                let pile = Layered::new(coil.cutter(), self.layers);
                pile.plate(place)
            }
            None => {
                let pile = Layered::new(MakersList::new(self.rows), self.layers);
                pile.plate(place)
            }
        }
    }
}
