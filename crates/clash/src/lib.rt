//! The closure of a net: what is true of every timeline that fits it, or that none does.
#![tactic(auto)]

mod closed_walk;
mod closure;
mod laws;
mod minimal;
mod short_walk;
mod spares;

pub use closure::{CloseFault, close, close_if_fits};
pub use laws::{
    clashes_have_closed_walks, net_has_one_closure, net_is_answered, orders_are_answered,
    walks_can_be_short, walks_say_all,
};
pub use minimal::{Clash, marked};
