//! What any text of lines is read and written by, whichever values it stands for.
#![tactic(auto)]

mod lines;
mod read;
mod stop;
mod words;
mod write;

pub use lines::{end_at, next_line, one_at, same_at};
pub use read::{ReadEvidence, refusal};
pub use stop::Stop;
pub use words::{after, is_same, long_to, one_of, relation_of, two_of, two_to};
pub use write::{push_one, push_relation, push_two};
