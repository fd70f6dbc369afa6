// What is asked of the engine for the sheets of a job: the least plate, a verdict, or why.
#![tactic(auto)]

pub mod accounts;
pub mod picks;
pub mod pile;
pub mod sheets;
pub mod verdicts;

pub use accounts::{NoAccount, account};
pub use picks::{Picked, pick};
pub use pile::JobPile;
pub use sheets::{JobSheet, joints_of};
pub use verdicts::{Judgement, judgements};
