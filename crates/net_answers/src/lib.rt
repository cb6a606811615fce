//! What the answers about nets share: a minimal clash as evidence, and the closure of the net of a document.
#![tactic(auto)]

mod clashing;
mod closing;
mod printing;

pub use clashing::clash_answer;
pub use closing::{NetQuery, answer_by_closure, answer_of_net};
pub use printing::evidence_text;
