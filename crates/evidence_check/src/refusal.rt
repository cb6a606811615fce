//! What supported evidence shows, and why evidence is refused.
use std::error::Error;
use std::fmt;

/// What supported evidence shows.
#[derive(Clone, Copy)]
pub enum Claim {
    /// Some timeline fits the net.
    Fits,
    /// The relation holds in every timeline that fits the net.
    Entails,
    /// The relation is false in some timeline that fits the net.
    CanFail,
    /// The cited links cannot all be true, and any one of them left out, they can.
    Clashes,
}

/// Why a part of evidence is refused.
#[derive(Clone, Copy, Debug, PartialEq, Eq)]
pub enum Reason {
    /// The first number that is none of an interval, or of a link where links are cited.
    Number { number: u32 },
    /// The timeline has this number of intervals, and the net another.
    Size { size: u32 },
    /// The first interval whose start is not below its end.
    Order { interval: u32 },
    /// The first link that does not hold.
    Link { link: u32 },
    /// The first pair of points, by `from` and then by `to`, that are not in the order of the calendar.
    Calendar { from: u32, to: u32 },
    /// The first step, counted from 0, that goes by no order, or does not begin where the one before it ended. Step 0
    /// begins at the first point of the order that the walk is to prove, or anywhere where it is to be closed.
    Step { step: u32 },
    /// The walk does not end at the other point, or where it began.
    End,
    /// No step is strict, and the order is, or the walk is to be closed.
    Weak,
    /// The first link that is cited and has no step of the walk, or has one and is not cited.
    Cited { link: u32 },
    /// The relation of a counterexample holds by its ranks.
    Holds,
}

impl fmt::Display for Reason {
    fn fmt<W: fmt::Write>(&self, f: &mut fmt::Formatter<W>) -> fmt::Result {
        match self {
            Reason::Number { number } => write!(f, "{number} is the number of nothing in the net"),
            Reason::Size { size } => write!(
                f,
                "the timeline has {size} intervals, and the net another number"
            ),
            Reason::Order { interval } => write!(
                f,
                "interval {interval} does not start before it ends"
            ),
            Reason::Link { link } => write!(f, "link {link} does not hold"),
            Reason::Calendar { from, to } => write!(
                f,
                "points {from} and {to} are not in the order of the calendar"
            ),
            Reason::Step { step } => write!(
                f,
                "step {step} goes by no order, or does not join the one before it"
            ),
            Reason::End => f.write_str("the walk ends at another point"),
            Reason::Weak => f.write_str("no step is strict"),
            Reason::Cited { link } => write!(
                f,
                "link {link} is cited without a step, or has a step and is not cited"
            ),
            Reason::Holds => f.write_str("the relation holds by the ranks"),
        }
    }
}

impl Error for Reason {}

/// The first part of evidence that is refused, and the first reason there. The numbers of the intervals, or of the cited
/// links, are part 0. A timeline is part 1, and so is the first of the walks. The relation of a counterexample is part 2,
/// and so is the first timeline of a clash.
#[derive(Clone, Copy, Debug, PartialEq, Eq)]
pub struct Refused {
    pub part: u32,
    pub reason: Reason,
}

impl fmt::Display for Refused {
    fn fmt<W: fmt::Write>(&self, f: &mut fmt::Formatter<W>) -> fmt::Result {
        write!(f, "part {}: {}", self.part, self.reason)
    }
}

impl Error for Refused {}

/// The first of several claims whose evidence is refused, counted from 0, and why it is refused.
#[derive(Clone, Copy, Debug, PartialEq, Eq)]
pub struct RefusedClaim {
    pub claim: u32,
    pub refused: Refused,
}

impl fmt::Display for RefusedClaim {
    fn fmt<W: fmt::Write>(&self, f: &mut fmt::Formatter<W>) -> fmt::Result {
        write!(f, "claim {}, {}", self.claim, self.refused)
    }
}

impl Error for RefusedClaim {}
