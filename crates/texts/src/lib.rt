// A text of lines, each a key and its values: its words, its numbers, its blocks and its one fault.
#![tactic(auto)]

pub mod drafts;
pub mod faults;
pub mod line;
pub mod values;
pub mod words;

pub use drafts::{Draft, Finish, whole, with_line};
pub use faults::{Expected, Fault, Found, Mismatch};
pub use line::Line;
pub use values::{Value, Word};
