// The supplies of plates: a maker's list, a coil cutter, and two kinds of layer over any supply, alone or as a list.
#![tactic(auto)]

pub mod coil;
pub mod covered;
pub mod few;
pub mod layered;
pub mod limit;
pub mod list;
pub mod strike;

pub use coil::{CoilCutter, MAX_WIDTHS};
pub use covered::{Covered, Hide, Through};
pub use few::Few;
pub use layered::{Layer, Layered};
pub use limit::PressLimit;
pub use list::{MakersList, Row};
pub use strike::{MAX_STRUCK, StrikeList};

#[cfg(test)]
mod tests;
