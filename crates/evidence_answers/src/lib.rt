//! The commands about evidence, and the one about placings and cycles. Each stands in a file of its own name.
#![tactic(auto)]

mod confirm;
mod join;
mod judged;
mod laws;
mod malformed;
mod renew;
mod role;
mod verify;

pub use confirm::Confirm;
pub use join::reply_of_join;
pub use laws::{confirm_judges_first, confirmed_is_true, verify_judges_first};
pub use malformed::malformed_answer;
pub use renew::Renew;
pub use role::{EVIDENCE, SECOND, SECONDS};
pub use verify::{Verify, verdict};
