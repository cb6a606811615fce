//! The documents of drills: events whose order is drawn from a number and hidden, with links that are true of it.
#![tactic(auto)]

mod drawing;
mod laws;
mod text;

pub use laws::{drill_is_accepted, drill_is_short, hidden_intervals_fit};
pub use text::drill_text;
