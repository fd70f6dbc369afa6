// A yard by its journal: the calls replayed from the yard's making on, their answers, and what
// stands in the yard after them.
#![tactic(auto)]

mod failures;
mod program;
mod writing;

pub use failures::Failure;
pub use program::{Order, run};
