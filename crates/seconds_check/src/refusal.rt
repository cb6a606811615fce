//! Why evidence is refused.
use std::error::Error;
use std::fmt;

/// Why evidence of seconds is refused: the first thing that is not as it should be, in the order of these reasons.
#[derive(Clone, Copy, Debug, PartialEq, Eq)]
pub enum SecondsReason {
    /// The placing is of this number of intervals, and the net has another.
    Size { size: u32 },
    /// The first interval whose start is not before its end.
    Order { interval: u32 },
    /// The first link that does not hold.
    Link { link: u32 },
    /// The first point that is before its lower number in the calendar, or after its upper one. Interval `i` starts at
    /// point `2 * i`, and ends at point `2 * i + 1`.
    Bound { point: u32 },
    /// The first interval that does not last as long as its limits say.
    Length { interval: u32 },
    /// The first line of a cycle, counted from 0, that names no constraint, or does not begin where the one before it
    /// ended. Line 0 begins anywhere.
    Step { step: u32 },
    /// The cycle does not end where it begins.
    End,
    /// The sum of the cycle is not below 0. That of no lines is 0.
    Sum,
}

impl fmt::Display for SecondsReason {
    fn fmt<W: fmt::Write>(&self, f: &mut fmt::Formatter<W>) -> fmt::Result {
        match self {
            SecondsReason::Size { size } => write!(
                f,
                "the placing has {size} intervals, and the net another number"
            ),
            SecondsReason::Order { interval } => write!(
                f,
                "interval {interval} does not start before it ends"
            ),
            SecondsReason::Link { link } => write!(f, "link {link} does not hold"),
            SecondsReason::Bound { point } => write!(
                f,
                "point {point} is outside its bounds in the calendar"
            ),
            SecondsReason::Length { interval } => write!(
                f,
                "interval {interval} is shorter or longer than its limits say"
            ),
            SecondsReason::Step { step } => write!(
                f,
                "line {step} names no constraint, or does not join the one before it"
            ),
            SecondsReason::End => f.write_str("the cycle does not end where it begins"),
            SecondsReason::Sum => f.write_str("the sum of the cycle is not below 0"),
        }
    }
}

impl Error for SecondsReason {}
