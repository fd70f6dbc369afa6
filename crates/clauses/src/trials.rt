// A plate as it is tried.
use plates::{Plate, Turning};
use rules::{Card, Conditions};

// One plate, laid in one turning, tried on a joint. `factor` is the moment factor of the
// joint in hundredths, 100 off the heel.
#[derive(Clone, Copy)]
pub struct Trial {
    pub conditions: Conditions,
    pub factor: u32,
    pub card: Card,
    pub plate: Plate,
    pub turning: Turning,
}
