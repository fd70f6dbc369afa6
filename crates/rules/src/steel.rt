// The resistance of the steel.
ghost use Rattle.std.specs.Prelude.{◌≡◌, ◌≤◌};
ghost use Rattle.rules.specs.Ranges.{CardWithin};
ghost use Rattle.rules.specs.Steel.{tensile, shear_at, shearing};

use super::teeth::between;
use super::terms::Card;

// Tension in N/mm at `rho` to the plate axis.
pub fn tensile(card: &Card, rho: u32) -> u32
    requires card { CardWithin card.now }
    requires rho { rho ≤ 90 }
    ensures value { result ≡ tensile card.now rho }
    ensures bound { result ≤ 20000 }
{
    between(card.t0, card.t90, rho, 90)
}

// The shear value at 30 × `step` degrees; 180 has the value of 0.
fn shear_at(card: &Card, step: u32) -> u32
    ensures { result ≡ shear_at card.now step }
{
    card.shear[step as usize % 6]
}

// Shear in N/mm at `sigma` to the plate axis.
pub fn shearing(card: &Card, sigma: u32) -> u32
    requires card { CardWithin card.now }
    requires sigma { sigma ≤ 179 }
    ensures value { result ≡ shearing card.now sigma }
    ensures bound { result ≤ 20000 }
{
    let low = shear_at(card, sigma / 30);
    let high = shear_at(card, sigma / 30 + 1);
    between(low, high, sigma % 30, 30)
}
