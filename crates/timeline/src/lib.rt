//! The least timelines of a table of orders.
#![tactic(auto)]

mod ranking;
mod timelines;

pub use timelines::{counter, least};
