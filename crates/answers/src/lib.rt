// What is answered for the sheets of a job text, line by line.
#![tactic(auto)]

mod accounts;
mod benches;
mod commands;
mod failures;
mod wording;

pub use accounts::Form;
pub use benches::{Bench, answered, checked};
pub use commands::{Command, answer};
pub use failures::{Cause, Source, Told, text_of};
pub use wording::Refused;
