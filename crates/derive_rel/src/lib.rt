//! The relations that hold in all timelines of a table.
#![tactic(auto)]

mod all_rows;
mod laws;
mod pairs;
mod ways;

pub use all_rows::{Row, rows};
pub use laws::{every_condition_has_rows, one_row_list};
pub use pairs::{RelSet, entailed};
