//! Minimal clashes.
ghost use Rattle.clash.specs.Minimal.{IsFirstClash, IsProvedClash, IsMarkedWalk, IsShortClosed, IsSpared, UpTo};
ghost use Rattle.net_orders.specs.Milestones.{AreWithMilestones};
ghost use Rattle.net_orders.specs.Sequence.{ArePoints};
ghost use Rattle.net_core.specs.Fits.{EveryLink};
ghost use Rattle.net_core.specs.Walks.{IsClosedWalk, Kept};
ghost use Rattle.std.specs.List.{Contains};
ghost use Rattle.std.specs.List.Sorted.{IsStrictlyIncreasing};
ghost use Rattle.net_core.specs.Nets.{points};
ghost use Rattle.order_closure.specs.Tables.{AreInRange};
ghost use Rattle.std.specs.Prelude.{IfOk, IfSome, length, ℕ, ◌*◌, ◌<◌, ◌≡◌, ◌≤◌, ◌↔◌};

use crate::closed_walk::{ClosedWalk, TURNS, closed_walk_over, thin};
use crate::short_walk::{first_link, short_walk};
use crate::spares::{spares_of, spares_soon};
use net_core::{Atom, List, Memory, Net, Ranks, Walk};
use net_orders::{first_unsettled, orders_with_milestones};
use std::alloc::Global;

/// Links that cannot all be true with the spans and the calendar, and of which any one can be left out so that the others
/// can: a minimal unsatisfiable subset.
#[derive(Drop)]
pub struct Clash {
    /// The numbers of the links, rising.
    pub cites: List<u32>,
    /// A walk from a point to itself with a strict step, over exactly these links. It has at most twice as many steps as
    /// there are points.
    pub walk: Walk,
    /// For each of these links, in their order, the least ranks that fit with the others.
    pub spares: List<Ranks>,
}

/// A clash with a closed walk that is looked for from some of these points, over all links; or, if a link of it is not needed,
/// from the link with which ranks no longer settle soon, over the links up to this one. `orders` are `fixed` orders and then those
/// of the links. None comes seldom if links clash.
///
/// # Errors
///
/// Out of memory.
pub fn clash_soon(
    alloc: Global,
    net: &Net,
    met: &[u32],
    fixed: usize,
    orders: &[Atom],
    sequence: &[usize],
) -> Result<Option<Clash>, Memory>
    requires met { ArePoints (points net.now) met.now }
    requires orders { AreInRange (points net.now) orders.now }
    ensures { IfOk result (λ found. IfSome found (IsProvedClash net.now)) }
{
    let few = orders_with_milestones(alloc, net)?;
    if let Some(walk) = short_walk(alloc, net, met)? {
        if let Some(clash) = clash_on_first(alloc, net, &few, walk)? {
            return Ok(Some(clash));
        }
    }
    let Some(link) = first_unsettled(alloc, net, fixed, orders, sequence)? else {
        return Ok(None);
    };
    let keep = up_to(alloc, net, link)?;
    let Some(walk) = closed_walk_over(alloc, net, &keep, link)? else {
        return Ok(None);
    };
    clash_on(alloc, net, &few, walk, link)
}

/// The clash of some links that a closed walk goes over, if the first link is needed in it.
fn clash_on_first(
    alloc: Global,
    net: &Net,
    fixed: &[Atom],
    walk: Walk,
) -> Result<Option<Clash>, Memory>
    requires fixed { AreWithMilestones net.now fixed.now }
    requires walk { IsShortClosed net.now walk }
    ensures { IfOk result (λ found. IfSome found (IsProvedClash net.now)) }
{
    match first_link(walk.as_slice()) {
        Some(link) if link < net.links() => clash_on(alloc, net, fixed, walk, link),
        _ => Ok(None),
    }
}

/// The clash of some links that a closed walk goes over, if a link is needed in it.
fn clash_on(
    alloc: Global,
    net: &Net,
    fixed: &[Atom],
    walk: Walk,
    link: u32,
) -> Result<Option<Clash>, Memory>
    requires fixed { AreWithMilestones net.now fixed.now }
    requires link { link < length net.now.links }
    requires goes { IsClosedWalk net.now EveryLink walk }
    requires short { length walk ≤ 2 * points net.now }
    ensures { IfOk result (λ found. IfSome found (IsProvedClash net.now)) }
{
    let closed = ClosedWalk::new(alloc, net, walk)?;
    let Some(_) = closed.spare(alloc, net, fixed, link, TURNS)? else {
        return Ok(None);
    };
    let clash = clash_of(alloc, net, fixed, closed, link)?;
    Ok(Some(clash))
}

/// The clash of some links up to this one, the first that clashes with those before it.
///
/// # Errors
///
/// Out of memory.
pub fn clash_up_to(alloc: Global, net: &Net, link: u32) -> Result<Clash, Memory>
    requires { IsFirstClash net.now link }
    ensures { IfOk result (IsProvedClash net.now) }
{
    let first = first_closed_walk(alloc, net, link)?;
    let fixed = orders_with_milestones(alloc, net)?;
    clash_of(alloc, net, &fixed, first, link)
}

/// The clash of the links that a walk goes over, of which one is needed, or of some of them.
fn clash_of(
    alloc: Global,
    net: &Net,
    fixed: &[Atom],
    first: ClosedWalk,
    needed: u32,
) -> Result<Clash, Memory>
    requires fixed { AreWithMilestones net.now fixed.now }
    requires closed { IsMarkedWalk net.now first }
    requires needed { needed < length net.now.links }
    requires spared { IsSpared net.now (Kept first.over.items) needed }
    ensures { IfOk result (IsProvedClash net.now) }
{
    let cites = marked(alloc, net, &first.over)?;
    if let Some(spares) = spares_soon(alloc, net, fixed, &first, cites.as_slice())? {
        return Ok(Clash {
            cites,
            walk: first.walk,
            spares,
        });
    }
    let closed = thin(alloc, net, fixed, first, needed)?;
    let cites = marked(alloc, net, &closed.over)?;
    let spares = spares_of(alloc, net, fixed, &closed, cites.as_slice())?;
    Ok(Clash {
        cites,
        walk: closed.walk,
        spares,
    })
}

/// A closed walk over links up to this one.
fn first_closed_walk(alloc: Global, net: &Net, link: u32) -> Result<ClosedWalk, Memory>
    requires { IsFirstClash net.now link }
    ensures closed { IfOk result (IsMarkedWalk net.now) }
    ensures spared { IfOk result (λ closed. IsSpared net.now (Kept closed.over.items) link) }
{
    prove!(link < net.links());
    let keep = up_to(alloc, net, link)?;
    match closed_walk_over(alloc, net, &keep, link)? {
        Some(walk) => ClosedWalk::new(alloc, net, walk),
        None => unreachable!(),
    }
}

/// A mark for each link: those up to this one are kept.
fn up_to(alloc: Global, net: &Net, link: u32) -> Result<Vec<bool>, Memory>
    ensures size { IfOk result (λ keep. length keep.items ≡ length net.now.links) }
    ensures kept { IfOk result (λ keep. (k : ℕ) → k < length net.now.links → Kept keep.items k ↔ UpTo link k) }
{
    let mut keep = Vec::new(alloc);
    for k in 0..net.links() {
        keep.push(k <= link)?;
    }
    Ok(keep)
}

/// The numbers of the links that are marked, rising.
///
/// # Errors
///
/// Out of memory.
pub fn marked(alloc: Global, net: &Net, marks: &[bool]) -> Result<List<u32>, Memory>
    requires { length marks.now ≡ length net.now.links }
    ensures rising { IfOk result IsStrictlyIncreasing }
    ensures exact { IfOk result (λ links. (k : ℕ) → Contains links k ↔ Kept marks.now k) }
{
    let mut links = List::new(alloc);
    for link in 0..net.links() {
        if marks[link as usize] {
            links.push(link)?;
        }
    }
    Ok(links)
}
