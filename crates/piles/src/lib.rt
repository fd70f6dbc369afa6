// The blocks of a job text that say which plates there are: a coil cutter, a press limit and a strike list.
#![tactic(auto)]

pub mod coils;
pub mod presses;
pub mod strikes;

pub use coils::{Coil, CoilDraft};
pub use presses::PressDraft;
pub use strikes::StrikeDraft;
