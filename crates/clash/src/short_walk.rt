//! Closed walks over few links.
ghost use Rattle.clash.specs.Minimal.{IsShortClosed};
ghost use Rattle.net_core.specs.Nets.{points};
ghost use Rattle.net_orders.specs.Sequence.{ArePoints};
ghost use Rattle.std.specs.Prelude.{IfOk, IfSome, OnOk, length, ◌<◌, ◌≡◌};

use net_core::{Memory, Net, Step, Walk};
use std::alloc::Global;
use walks::walk;

/// From how many points closed walks are looked for at most, and from how many at most in a net with as many intervals as there
/// may be, in which each search takes long.
const MOST_TRIES: usize = 64;

const FEW_TRIES: usize = 8;

/// Up to how many intervals the most tries are made. In larger nets there are fewer, as each takes longer.
const SMALL_NET: usize = 128;

/// A closed walk over few links: of those that are the shortest from some of these points, the one with the fewest steps over
/// links. None comes only if no closed walk goes through any of these points.
///
/// # Errors
///
/// Out of memory.
pub fn short_walk(alloc: Global, net: &Net, met: &[u32]) -> Result<Option<Walk>, Memory>
    requires { ArePoints (points net.now) met.now }
    ensures { IfOk result (λ found. IfSome found (IsShortClosed net.now)) }
{
    let every = vec![in alloc; true; net.links() as usize]?;
    let apart = met.len() / tries(net) + 1;
    let mut best = None;
    for (k, point) in met.iter().enumerate() {
        if k % apart == 0 {
            improve(alloc, net, &every, *point, &mut best)?;
        }
    }
    Ok(best)
}

/// From how many points of a net closed walks are looked for at most.
fn tries(net: &Net) -> usize
    ensures { 0 < result }
{
    let times = net.intervals() as usize / SMALL_NET + 1;
    (MOST_TRIES / times).max(FEW_TRIES)
}

/// Takes the shortest closed walk through a point, if it has fewer steps over links.
fn improve(
    alloc: Global,
    net: &Net,
    keep: &[bool],
    point: u32,
    best: &mut Option<Walk>,
) -> Result<(), Memory>
    requires keep { length keep.now ≡ length net.now.links }
    requires point { point < points net.now }
    requires best { IfSome best.old (IsShortClosed net.now) }
    ensures { OnOk result (IfSome best.new (IsShortClosed net.now)) }
{
    let Some(found) = walk(alloc, net, keep, point, point, true)? else {
        return Ok(());
    };
    let is_better = match best {
        Some(best) => count_links(found.as_slice()) < count_links(best.as_slice()),
        None => true,
    };
    if is_better {
        *best = Some(found);
    }
    Ok(())
}

/// How many steps go over links.
fn count_links(steps: &[Step]) -> usize {
    steps.iter().filter(|step| step.link().is_some()).count()
}

/// The first link that steps go over.
pub fn first_link(steps: &[Step]) -> Option<u32> {
    steps.iter().find_map(|step| step.link())
}
