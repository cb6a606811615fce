//! The commands that say what a document is: its units, whether it is well annotated, when its times are, and its canonical
//! text. Each stands in a file of its own name.
#![tactic(auto)]

mod canon;
mod check;
mod dates;
mod spans;

pub use canon::Canon;
pub use check::Check;
pub use dates::Dates;
pub use spans::Spans;
