//! Placings of intervals in whole seconds, or cycles of constraints that show that there is none.
#![tactic(auto)]

mod cycle;
mod deciding;
mod edges;
mod laws;
mod leaving;
mod ordering;
mod placing;
mod relaxation;
mod rounds;

pub use deciding::{PlaceFault, place};
pub use laws::every_net_is_decided;
