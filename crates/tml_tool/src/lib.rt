//! The program `tml`: the table of its commands, and the top call.
#![tactic(auto)]

mod commands;
mod laws;
mod top;

pub use commands::usage_text;
pub use drill::drill_text;
pub use laws::{canonical_is_alike, evidence_is_verified};
pub use runs::Status;
pub use top::{Tml, run};
