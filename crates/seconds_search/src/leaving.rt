//! The edges that leave each point.
ghost use Rattle.seconds_search.specs.Edges.{AreInside};
ghost use Rattle.seconds_search.specs.Leaving.{AreLeaving};
ghost use Rattle.std.specs.Prelude.{IfOk};

use crate::edges::Edge;
use net_core::Memory;
use std::alloc::Global;

/// The edges that leave each point, as lists by their numbers.
#[derive(Drop)]
pub struct Leaving {
    /// For each point the last edge that leaves it.
    pub last: Vec<Option<usize>>,
    /// For each edge the one before it that leaves the same point.
    pub before: Vec<Option<usize>>,
}

impl Leaving {
    /// The lists of edges between so many points.
    ///
    /// # Errors
    ///
    /// Out of memory.
    pub fn new(alloc: Global, edges: &[Edge], points: u32) -> Result<Leaving, Memory>
        requires { AreInside points edges.now }
        ensures { IfOk result (AreLeaving points edges.now) }
    {
        let mut last = vec![in alloc; None; points as usize]?;
        let mut before = Vec::new(alloc);
        for (number, edge) in edges.iter().enumerate() {
            let from = edge.constraint.from as usize;
            before.push(last[from])?;
            last[from] = Some(number);
        }
        Ok(Leaving { last, before })
    }
}
