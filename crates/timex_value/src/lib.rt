//! Times of TIMEX3: their kinds and modifiers, and what their values say by ISO 8601.
#![tactic(auto)]

mod civil;
mod durations;
mod fields;
mod kinds;
pub mod laws;
mod length;
mod read;
mod shape;
mod valid;
mod value;

pub use kinds::{Modifier, TimexKind};
pub use length::{Count, Length};
pub use read::read_value;
pub use shape::{Part, Shape, Year};
pub use value::{BadDate, Calendar, Value};
