//! Which of the thirteen base relations two intervals can still have, each with a timeline that shows it.
#![tactic(auto)]

mod base_set;
mod checking;
mod laws;
mod order_sets;
mod possible_sets;
mod timelines;
mod trying;

pub use base_set::BaseSet;
pub use checking::check_possible;
pub use laws::one_item_list;
pub use order_sets::OrderSets;
pub use possible_sets::possible_set;
pub use timelines::{PossibleItem, possible};
