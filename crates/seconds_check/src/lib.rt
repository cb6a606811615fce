//! The checker of placings and cycles. It stands on intervals with limits and on evidence alone, and knows nothing of how
//! evidence is found.
#![tactic(auto)]

mod checker;
mod cycle;
mod laws;
mod placing;
mod refusal;

pub use checker::confirm;
pub use laws::{confirmed_or_refused, one_verdict};
pub use refusal::SecondsReason;
