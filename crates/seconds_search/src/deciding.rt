//! A placing of intervals, or a cycle that shows that there is none.
ghost use Rattle.seconds_search.specs.Decided.{IsDecided};
ghost use Rattle.seconds_search.specs.declared.deciding.PlaceFault.TheVariants as faults;
ghost use Rattle.std.specs.Prelude.{◌≡◌};

use crate::cycle::negative_cycle;
use crate::edges::edges_of;
use crate::placing::from_origin;
use crate::relaxation::Distances;
use crate::rounds::Rounds;
use net_core::Memory;
use seconds_core::{Cycle, Placing, Timed};
use std::alloc::Global;
use std::error::Error;
use std::fmt;

/// Why intervals are not placed.
#[derive(Drop)]
pub enum PlaceFault {
    /// They cannot be: a cycle of constraints whose sum is below 0, of at most one line for each point and one more.
    Negative(Cycle),
    /// Out of memory.
    Memory,
}

impl fmt::Debug for PlaceFault {
    fn fmt<W: fmt::Write>(&self, f: &mut fmt::Formatter<W>) -> fmt::Result {
        write!(f, "{self}")
    }
}

impl fmt::Display for PlaceFault {
    fn fmt<W: fmt::Write>(&self, f: &mut fmt::Formatter<W>) -> fmt::Result {
        f.write_str(match self {
            PlaceFault::Negative(_) => "no placing meets all constraints",
            PlaceFault::Memory => "out of memory",
        })
    }
}

impl Error for PlaceFault {}

impl From<Memory> for PlaceFault {
    ghost from_gives = { λ _ e. e ≡ faults.Memory };

    fn from(_e: Memory) -> PlaceFault {
        PlaceFault::Memory
    }
}

/// Places the start and the end of each interval at a whole second, so that each interval starts before it ends, each
/// link holds, each point is in the calendar, and each interval lasts as long as its limits say. Which placing, or which
/// cycle, is unspecified.
///
/// # Errors
///
/// Where there is no placing, a cycle that shows it; or out of memory.
pub fn place(alloc: Global, timed: &Timed) -> Result<Placing, PlaceFault>
    ensures { IsDecided timed.now result }
{
    let points = timed.origin() + 1;
    let edges = edges_of(alloc, timed)?;
    let mut rounds = Rounds::new(alloc, &edges, points)?;
    let mut distances = Distances::new(alloc, points)?;
    while let Some(point) = rounds.next(&edges, &mut distances)? {
        if let Some(cycle) = negative_cycle(alloc, &edges, &distances, point)? {
            return Err(PlaceFault::Negative(cycle));
        }
    }
    Ok(Placing::from_vec(from_origin(distances.into_seconds())))
}
