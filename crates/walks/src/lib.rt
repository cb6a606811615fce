//! Walks through a net, from point to point.
#![tactic(auto)]

mod dates;
mod edges;
mod graph;
mod search;
mod states;

pub use dates::{Date, dates_from, lowers_of, uppers_of};
pub use search::walk;
