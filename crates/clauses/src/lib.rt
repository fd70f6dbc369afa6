// The clauses: what each asks of a plate that is laid in one turning over a member. Those that
// clauses of a joint call ask that the numbers lie within their ranges, which the standing of the
// joint establishes.
#![tactic(auto)]

mod asked;
mod splices;
mod trials;
mod worked;

pub use asked::{allowed, extends, meets, section, short_teeth};
pub use splices::{Section, holds_moment};
pub use trials::Trial;
pub use worked::{
    WorkedHeels, WorkedLimits, WorkedSplice, WorkedTeeth, worked_heels, worked_limits,
    worked_splice, worked_teeth,
};
