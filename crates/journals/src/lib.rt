// The journal of a yard: the calls made on it, one a line, in the order in which they were made.
#![tactic(auto)]

pub mod calls;
pub mod ordinals;
pub mod reader;
#[cfg(test)]
mod tests;
pub mod verbs;

pub use calls::call_of;
pub use reader::{Entry, read};
pub use verbs::Verb;
