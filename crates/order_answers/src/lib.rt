//! The commands about the order of intervals: the least timeline, whether a relation holds, which relations follow, and the
//! self-test. Each stands in a file or folder of its own name.
#![tactic(auto)]

mod ask;
mod drill_command;
mod laws;
mod relations;
mod solve;

pub use ask::Ask;
pub use drill_command::{drill_number, drill_summary};
pub use laws::{closures_entail_what_follows, one_counterexample};
pub use relations::Relations;
pub use solve::Solve;
