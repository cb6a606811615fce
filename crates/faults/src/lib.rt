//! The faults that a document can have, in the order in which they count, and what the first fault is.
#![tactic(auto)]

mod kind;
mod laws;

pub use kind::{FaultKind, write_fault};
pub use laws::kinds_are_numbered;
