//! What is asked of the placing of a document in whole seconds: one, or a cycle that shows that there is none.
#![tactic(auto)]

mod laws;
mod seconds;

pub use laws::seconds_are_confirmed;
pub use seconds::Seconds;
