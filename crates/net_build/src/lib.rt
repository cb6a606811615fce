//! The net of a document.
#![tactic(auto)]

mod build;
mod laws;

pub use build::net_of;
pub use laws::{every_document_has_a_net, one_net};
