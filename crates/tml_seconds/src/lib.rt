//! Placings in whole seconds, for callers: all public calls of the crates that make them, under one name.
//!
//! `limits_of` and `timed_of` say how long the intervals of a document last, `place` finds a placing or a cycle that shows
//! that there is none, `write_seconds` and `read_seconds` are the text of either, and `confirm` checks it without the search.
#![tactic(auto)]

pub use seconds_build::{
    durations_are_below_the_limit, every_document_is_timed, limits_of, one_timed, timed_of,
};
pub use seconds_check::{SecondsReason, confirm, confirmed_or_refused, one_verdict};
pub use seconds_core::{
    Cycle, Limits, Line, Placing, SecondsEvidence, Timed, constraints_say_what_is_placed,
    negative_is_unplaced, placed_fits, seconds_say_the_relation,
};
pub use seconds_format::{one_bad_line, one_text, read_seconds, text_or_bad_line, write_seconds};
pub use seconds_search::{PlaceFault, every_net_is_decided, place};
