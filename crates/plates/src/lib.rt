// The vocabulary of the engine: the plate, its turning, the verdict on it, the refusals,
// and the two traits that everything above is generic in, a supply of plates and a joint.
#![tactic(auto)]

pub mod refusals;
pub mod shape;
pub mod traits;
pub mod turnings;
pub mod verdicts;

pub use refusals::{Refusal, Thing};
pub use shape::Plate;
pub use traits::{Joint, Supply};
pub use turnings::Turning;
pub use verdicts::{Clause, Verdict};
