// The plate that is chosen for a joint.
ghost use Rattle.asking.specs.Picks.{as_choice, Shown};
ghost use Rattle.choice.specs.Choosing.{Chosen};

use choice::choose;
use plates::{Joint, Plate, Refusal, Supply, Turning};
use std::fmt;

// The plate that was chosen, with its place and turning, the area of one face in mm², and how many places were asked.
#[derive(Clone, Copy)]
pub struct Picked {
    pub place: u32,
    pub turning: Turning,
    pub plate: Plate,
    pub area: u32,
    pub asked: u32,
}

// What is chosen, with the plate that the supply shows at its place.
pub fn pick<J: Joint, S: Supply>(joint: &J, supply: &S) -> Result<Picked, Refusal>
    ensures chosen { Chosen (J.standing joint.now) (J.verdict joint.now) (S.places supply.now) (S.shows supply.now) (as_choice result) }
    ensures shown { Shown (S.shows supply.now) result }
{
    let choice = choose(joint, supply)?;
    let (place, turning) = choice.candidate;
    Ok(Picked {
        place,
        turning,
        plate: supply.plate(place).unwrap(),
        area: choice.area,
        asked: choice.asked,
    })
}

impl fmt::Display for Picked {
    fn fmt<W: fmt::Write>(&self, f: &mut fmt::Formatter<W>) -> fmt::Result {
        write!(
            f,
            "place {} {} {} area {} asked {}",
            self.place, self.turning, self.plate, self.area, self.asked
        )
    }
}
