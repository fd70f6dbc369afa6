// The yard: the pairs on hand and out at 256 places of a pile, and the slips for those out.
#![tactic(auto)]

pub mod bins;
pub mod hooks;
pub mod replays;
pub mod rooms;
pub mod slips;
pub mod yards;

pub use bins::Bin;
pub use hooks::{OpenSlip, open_slips, void_all};
pub use replays::{Answer, Call, Hook, Outcome, replay};
pub use rooms::replay_with_room;
pub use slips::{DrawnSlip, Slip, SlipNumbers, TackedSlip, TurnedAway};
pub use yards::Yard;
