//! Intervals with limits of how long they last, placings of them in whole seconds, and cycles that show that there is none.
#![tactic(auto)]

mod evidence;
mod laws;
mod line;
mod timed;

pub use evidence::{Cycle, Placing, SecondsEvidence};
pub use laws::{
    constraints_say_what_is_placed, greatest_length_is_exact, negative_is_unplaced, placed_fits,
    seconds_say_the_relation,
};
pub use line::{Constraint, Line, constraint_of};
pub use timed::{Limits, MAX_LENGTH, Timed};
