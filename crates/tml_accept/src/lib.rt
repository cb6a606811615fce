//! Whether a document is well annotated: what it says, or its first fault.
#![tactic(auto)]

mod accepting;
mod laws;
mod refusal;

pub use accepting::accept;
pub use laws::{every_document_is_judged, one_acceptance};
pub use refusal::Refusal;
