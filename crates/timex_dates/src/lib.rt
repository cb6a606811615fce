//! Calendar intervals: when the dates of TIMEX3 begin and end, in whole civil seconds, and the civil texts of seconds.
#![tactic(auto)]

mod bounds;
mod civil;
mod days;
mod interval;
mod known;
mod laws;
mod print;

pub use bounds::bounds_of;
pub use civil::CivilText;
pub use laws::{every_text, every_time, one_bounds, one_extent, one_text};
pub use print::civil_text;
