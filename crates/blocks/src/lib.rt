// The blocks of a job text: for each its keys, what its lines have said so far, and what they give as a whole.
#![tactic(auto)]

pub mod cards;
pub mod heels;
pub mod members;
pub mod sheets;
pub mod splices;

pub use cards::CardDraft;
pub use heels::HeelDraft;
pub use members::MemberDraft;
pub use sheets::{SheetDraft, Tried};
pub use splices::SpliceDraft;
