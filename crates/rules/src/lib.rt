// The rules of truss plate joints as arithmetic: what teeth and steel resist, where a plate and a
// field lie over each other, the bite table and the factor of a heel. Lengths are in mm, forces
// in N, angles in whole degrees, factors in hundredths, tooth and slip values in kPa; every
// division rounds down. The functions ask for numbers within their ranges, which the standing of
// a joint establishes.
#![tactic(auto)]

mod bites;
mod heels;
mod sides;
mod sines;
mod steel;
mod teeth;
mod terms;

pub use bites::bite;
pub use heels::{FactorRule, heel_factor};
pub use sides::{along, extent, full_side, net_side};
pub use sines::squares;
pub use steel::{shearing, tensile};
pub use teeth::{at_grain, cut_all, factored, lateral, service_factor};
pub use terms::{
    Area, Axis, Card, Conditions, Duration, Field, Force, Lateral, Mark, Member, Service, Span,
    Species, Turnings,
};
