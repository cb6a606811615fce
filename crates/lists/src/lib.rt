//! Lists that contracts see as their items, and the error of a growth that was refused.
#![tactic(auto)]

mod list;
mod memory;

pub use list::List;
pub use memory::Memory;
