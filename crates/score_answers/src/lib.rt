//! What is asked of the links of a document: which of them say it all, and how much of it follows from a key.
#![tactic(auto)]

mod counts;
mod laws;
mod reduce;
mod role;
mod score;

pub use laws::score_reads_first;
pub use reduce::Reduce;
pub use role::KEY;
pub use score::Score;
