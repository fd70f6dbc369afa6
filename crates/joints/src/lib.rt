// Joints as the caller draws them: a sheet over the caller's members and cards.
#![tactic(auto)]

mod any;
mod grounds;
mod heel;
mod kinds;
mod sheets;
mod splice;
mod trying;
mod web;

pub use any::{AnyJoint, AnySheet};
pub use heel::HeelJoint;
pub use sheets::{HeelSheet, Sheet, SpliceSheet};
pub use splice::SpliceJoint;
pub use web::WebJoint;
