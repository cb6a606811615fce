//! What the answers to commands share: the lines that they print, the refusal of a document at fault, and the replies to
//! what is asked of one document, or of a document and another file.
#![tactic(auto)]

mod judged;
mod lines;
mod names;
mod one_document;
mod refusing;
mod role;

pub use judged::{JudgedQuery, reply_of_judged};
pub use lines::{push_fault, push_link, push_number, push_numbered, push_prefix, push_related};
pub use names::{names_of, unknown_name};
pub use one_document::{DocumentQuery, reply_of_document};
pub use refusing::refusal;
pub use role::DOC;
