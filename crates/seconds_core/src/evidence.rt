//! Placings, and cycles.
ghost use Rattle.seconds_core.specs.Evidence.{ArePairs, max_lines};
ghost use Rattle.std.specs.Prelude.{length, ◌<◌, ◌≡◌};

use crate::Line;
use std::marker::Model;

/// A second for the start and one for the end of each interval, in the order of the intervals: an even number of seconds,
/// for fewer than 2^32 intervals.
#[derive(Drop)]
pub struct Placing {
    seconds: Vec<i64>,
}

impl Model for Placing {
    ghost use Rattle.seconds_core.specs.Evidence.{ArePairs};
    ghost use Rattle.std.specs.Prelude.{List as ListOf, ℤ};

    ghost Value = { ListOf ℤ };

    ghost view = { λ a. a.seconds.items };

    ghost invariant = { λ a. ArePairs a.seconds.items };
}

impl Placing {
    /// The placing of these seconds. It takes no memory.
    pub fn from_vec(seconds: Vec<i64>) -> Placing
        requires { ArePairs seconds.items }
        ensures { result ≡ seconds.items }
    {
        Placing { seconds }
    }

    /// The seconds: of each interval its start and its end.
    pub fn as_slice(&self) -> &[i64]
        ensures seconds { result.now ≡ self.now }
        ensures placing { ArePairs self.now }
    {
        self.seconds.as_slice()
    }
}

/// Lines, one after another: fewer than 2^32.
#[derive(Drop)]
pub struct Cycle {
    lines: Vec<Line>,
}

impl Model for Cycle {
    ghost use Rattle.seconds_core.specs.Evidence.{max_lines};
    ghost use Rattle.seconds_core.specs.declared.line.Line.{Line};
    ghost use Rattle.std.specs.Prelude.{List as ListOf, length, ◌<◌};

    ghost Value = { ListOf Line };

    ghost view = { λ a. a.lines.items };

    ghost invariant = { λ a. length a.lines.items < max_lines };
}

impl Cycle {
    /// The cycle of these lines. It takes no memory.
    pub fn from_vec(lines: Vec<Line>) -> Cycle
        requires { length lines.items < max_lines }
        ensures { result ≡ lines.items }
    {
        Cycle { lines }
    }

    /// The lines, in order.
    pub fn as_slice(&self) -> &[Line]
        ensures lines { result.now ≡ self.now }
        ensures few { length self.now < max_lines }
    {
        self.lines.as_slice()
    }
}

/// What shows that there is a placing, or that there is none.
#[derive(Drop)]
pub enum SecondsEvidence {
    /// A placing.
    Placing(Placing),
    /// Constraints that cannot all be met: they lead back to where they begin, with a sum below 0.
    Cycle(Cycle),
}
