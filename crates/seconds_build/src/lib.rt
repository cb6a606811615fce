//! The net of a document, with the lengths of its durations in seconds.
#![tactic(auto)]

mod build;
mod laws;
mod lengths;

pub use build::timed_of;
pub use laws::{durations_are_below_the_limit, every_document_is_timed, one_timed};
pub use lengths::limits_of;
