// A journal played on a new yard: the answers, and what they come to.
#![tactic(auto)]

pub mod fates;
pub mod lists;
pub mod playing;

pub use lists::{Done, PressLine, answered, calls_of, press_list};
pub use playing::{Played, play};
