//! Tables of the orders that atoms entail.
#![tactic(auto)]

mod between;
mod cell;
mod laws;
mod planes;
mod rows;
mod table;

pub use between::orders_between;
pub use cell::Cell;
pub use laws::{
    chosen_points_decide, closed_tables_have_timelines, most_points_are_exact,
    weaker_cells_can_fail,
};
pub use planes::MAX_TABLE_POINTS;
pub use table::{Closed, WouldClash};
