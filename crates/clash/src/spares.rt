//! The least timelines that fit with all links of a clash but one.
ghost use Rattle.net_core.specs.Least.{AreSpares, IsSpare};
ghost use Rattle.clash.specs.Minimal.{IsMarkedWalk, IsSpared};
ghost use Rattle.net_orders.specs.Milestones.{AreWithMilestones};
ghost use Rattle.net_core.specs.Walks.{Kept};
ghost use Rattle.std.specs.List.{All};
ghost use Rattle.std.specs.Prelude.{IfOk, IfSome};

use crate::closed_walk::{ClosedWalk, TURNS};
use net_core::{Atom, List, Memory, Net, Ranks};
use std::alloc::Global;

/// For each link of a closed walk, in order, the least ranks that fit with the others.
///
/// # Errors
///
/// Out of memory.
pub fn spares_of(
    alloc: Global,
    net: &Net,
    fixed: &[Atom],
    closed: &ClosedWalk,
    cites: &[u32],
) -> Result<List<Ranks>, Memory>
    requires fixed { AreWithMilestones net.now fixed.now }
    requires closed { IsMarkedWalk net.now closed.now }
    requires spared { All (IsSpared net.now (Kept closed.now.over.items)) cites.now }
    ensures { IfOk result (AreSpares net.now (Kept closed.now.over.items) cites.now) }
{
    let mut spares = List::new(alloc);
    for cite in cites {
        let spare = spare_of(alloc, net, fixed, closed, *cite)?;
        spares.push(spare)?;
    }
    Ok(spares)
}

/// The same if all ranks settle soon: then each of these links is needed.
///
/// # Errors
///
/// Out of memory.
pub fn spares_soon(
    alloc: Global,
    net: &Net,
    fixed: &[Atom],
    closed: &ClosedWalk,
    cites: &[u32],
) -> Result<Option<List<Ranks>>, Memory>
    requires fixed { AreWithMilestones net.now fixed.now }
    requires closed { IsMarkedWalk net.now closed.now }
    ensures { IfOk result (λ found. IfSome found (AreSpares net.now (Kept closed.now.over.items) cites.now)) }
{
    let mut spares = List::new(alloc);
    for cite in cites {
        match closed.spare(alloc, net, fixed, *cite, TURNS)? {
            Some(spare) => spares.push(spare)?,
            None => return Ok(None),
        }
    }
    Ok(Some(spares))
}

/// The least ranks that fit with the links that a walk goes over, but one.
fn spare_of(
    alloc: Global,
    net: &Net,
    fixed: &[Atom],
    closed: &ClosedWalk,
    omitted: u32,
) -> Result<Ranks, Memory>
    requires fixed { AreWithMilestones net.now fixed.now }
    requires closed { IsMarkedWalk net.now closed.now }
    requires spared { IsSpared net.now (Kept closed.now.over.items) omitted }
    ensures { IfOk result (IsSpare net.now (Kept closed.now.over.items) omitted) }
{
    match closed.spare(alloc, net, fixed, omitted, u32::MAX)? {
        Some(ranks) => Ok(ranks),
        None => unreachable!(),
    }
}
