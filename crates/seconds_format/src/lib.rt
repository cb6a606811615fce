//! The text of placings and cycles, read and written.
#![tactic(auto)]

mod cycle;
mod head;
mod laws;
mod placing;
mod read;
mod seconds;
mod write;

pub use laws::{one_bad_line, one_text, same_begun, text_or_bad_line};
pub use read::read_seconds;
pub use write::write_seconds;
