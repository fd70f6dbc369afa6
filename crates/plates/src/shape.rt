// A plate exists only within its ranges: the struct's facts say so of every plate there is.
ghost use Rattle.std.specs.Prelude.{◌≤◌};

pub mod making;

pub const MIN_SIDE: u32 = 20;

pub const MAX_WIDTH: u32 = 300;

pub const MAX_LENGTH: u32 = 1000;

pub const MAX_FAMILY: u32 = 15;

// One plate of a pair: width and length in mm, and the family that its card is listed under.
#[derive(Clone, Copy, PartialEq, Eq, Debug)]
pub struct Plate {
    width: u32,
    length: u32,
    family: u32,
    ghost wide: { 20 ≤ width },
    ghost narrow: { width ≤ 300 },
    ghost long: { 20 ≤ length },
    ghost short: { length ≤ 1000 },
    ghost listed: { family ≤ 15 },
}
