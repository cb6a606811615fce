//! What is asked of the base relations that intervals of a document can have.
#![tactic(auto)]

mod matrix;
mod possible;
mod set_texts;

pub use matrix::Matrix;
pub use possible::Possible;
