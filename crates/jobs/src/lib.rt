// The job text: what a designer writes down, read into cards, members, sheets and the plates there are.
#![tactic(auto)]

pub mod openers;
pub mod reader;

pub use openers::{Block, Format};
pub use reader::{Entry, Job, read};
