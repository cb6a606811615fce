//! The orders of points that a net is: those of its intervals, its calendar and its links. They are added to a table in a
//! sequence that serves, have a closed walk or none, and raise ranks until all of them are true.
#![tactic(auto)]

mod calendar;
mod components;
mod insert;
mod least;
mod links;
mod milestones;
mod orders;
mod raising;
mod schedule;
mod sequence;
mod settling;
mod unsettled;

pub use components::points_on_cycles;
pub use insert::{add_in_sequence, add_orders};
pub use least::least_timeline;
pub use links::{FirstClash, add_links, atoms_of_link, nth_order};
pub use milestones::orders_with_milestones;
pub use orders::{Order, all_orders, fixed_orders, orders_of};
pub use schedule::{Schedule, schedule_of};
pub use sequence::{Sequence, sequence_of};
pub use settling::settle_without;
pub use unsettled::first_unsettled;
