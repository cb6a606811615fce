//! Closed walks, and the links that they go over.
ghost use Rattle.clash.specs.Minimal.{IsMarkedWalk, IsSpared};
ghost use Rattle.net_orders.specs.Milestones.{AreWithMilestones};
ghost use Rattle.net_core.specs.Fits.{EveryLink};
ghost use Rattle.net_core.specs.Least.{IsSpare};
ghost use Rattle.net_core.specs.Nets.{points};
ghost use Rattle.net_core.specs.Walks.{GoesOver, IsClosedWalk, Kept};
ghost use Rattle.net_core.specs.declared.step.Step.{Step as StepOf};
ghost use Rattle.std.specs.Prelude.{IfNone, IfOk, IfSome, List as ListOf, OnOk, false, length, ℕ, ◌*◌, ◌<◌, ◌≡◌, ◌≢◌, ◌≤◌};

use net_core::{Atom, List, Memory, Net, Ranks, Walk, mark_steps};
use net_orders::{Order, atoms_of_link, nth_order, orders_of, settle_without};
use std::alloc::Global;
use walks::walk;

/// How many turns more ranks are given to settle if a sequence that serves was not enough.
pub const TURNS: u32 = 0;

/// A walk from a point to itself with a strict step, a mark for each link that it goes over, and the orders that its steps
/// are over.
#[derive(Drop)]
pub struct ClosedWalk {
    pub walk: Walk,
    pub over: Vec<bool>,
    pub orders: List<Order>,
}

impl ClosedWalk {
    /// A walk with the marks of the links that it goes over.
    pub fn new(alloc: Global, net: &Net, walk: Walk) -> Result<ClosedWalk, Memory>
        requires goes { IsClosedWalk net.now EveryLink walk }
        requires short { length walk ≤ 2 * points net.now }
        ensures closed { IfOk result (IsMarkedWalk net.now) }
        ensures walk { IfOk result (λ closed. closed.walk ≡ walk) }
    {
        let mut over = vec![in alloc; false; net.links() as usize]?;
        mark_steps(&mut over, walk.as_slice());
        let orders = orders_of(alloc, net, walk.as_slice())?;
        Ok(ClosedWalk { walk, over, orders })
    }

    /// The least ranks that fit with the links that the walk goes over, but one, if they settle in this number of turns. They
    /// do in all turns that there are if any fit.
    pub fn spare(
        &self,
        alloc: Global,
        net: &Net,
        fixed: &[Atom],
        omitted: u32,
        turns: u32,
    ) -> Result<Option<Ranks>, Memory>
        requires closed { IsMarkedWalk net.now self.now }
        requires fixed { AreWithMilestones net.now fixed.now }
        ensures some { IfOk result (λ found. IfSome found (IsSpare net.now (Kept self.now.over.items) omitted)) }
        ensures none { IfOk result (λ found. IfNone found (turns ≡ u32.MAX → IsSpared net.now (Kept self.now.over.items) omitted → ⊥)) }
    {
        let points = 2 * net.intervals() as usize;
        let mut ranks = vec![in alloc; 0u32; 2 * points]?;
        if settle_without(
            alloc,
            self.orders.as_slice(),
            fixed,
            omitted,
            &mut ranks,
            turns,
        )? {
            ranks.truncate(points);
            Ok(Some(Ranks::from_vec(ranks)))
        } else {
            Ok(None)
        }
    }

    /// Takes another walk, that does not go over a link, if there is one over the others. Another link is needed:
    /// without it some timeline fits.
    fn leave_out(
        &mut self,
        alloc: Global,
        net: &Net,
        fixed: &[Atom],
        link: u32,
        needed: u32,
    ) -> Result<(), Memory>
        requires closed { IsMarkedWalk net.now self.old }
        requires fixed { AreWithMilestones net.now fixed.now }
        requires link { Kept self.old.over.items link }
        requires needed { needed < length net.now.links }
        requires other { link ≢ needed }
        requires spared { IsSpared net.now (Kept self.old.over.items) needed }
        ensures closed { OnOk result (IsMarkedWalk net.now self.new) }
        ensures fewer { OnOk result ((k : ℕ) → Kept self.new.over.items k → Kept self.old.over.items k) }
        ensures spared { OnOk result (Kept self.new.over.items link → IsSpared net.now (Kept self.new.over.items) link) }
    {
        if self.spare(alloc, net, fixed, link, TURNS)?.is_some() {
            return Ok(());
        }
        prove!(needed < net.links());
        self.over[link as usize] = false;
        match closed_walk_over(alloc, net, &self.over, needed)? {
            Some(walk) => *self = ClosedWalk::new(alloc, net, walk)?,
            None => self.over[link as usize] = true,
        }
        Ok(())
    }
}

/// Leaves out each link without which there is still a closed walk. One of them is needed: without it some timeline fits.
///
/// For each link that the first walk goes over, it takes time linear in the points and orders. Each that is left out takes up
/// to four searches more, over the spans, the links of the walk at that time and the pairs of dates.
///
/// # Errors
///
/// Out of memory.
pub fn thin(
    alloc: Global,
    net: &Net,
    fixed: &[Atom],
    first: ClosedWalk,
    needed: u32,
) -> Result<ClosedWalk, Memory>
    requires fixed { AreWithMilestones net.now fixed.now }
    requires closed { IsMarkedWalk net.now first }
    requires needed { needed < length net.now.links }
    requires spared { IsSpared net.now (Kept first.over.items) needed }
    ensures closed { IfOk result (IsMarkedWalk net.now) }
    ensures spared { IfOk result (λ closed. (k : ℕ) → Kept closed.over.items k → IsSpared net.now (Kept closed.over.items) k) }
{
    let mut closed = first;
    for link in 0..net.links() {
        if link != needed && closed.over[link as usize] {
            closed.leave_out(alloc, net, fixed, link, needed)?;
        }
    }
    Ok(closed)
}

/// A closed walk over links that are kept. None comes only if no such walk goes over the link of this number.
///
/// # Errors
///
/// Out of memory.
pub fn closed_walk_over(
    alloc: Global,
    net: &Net,
    keep: &[bool],
    link: u32,
) -> Result<Option<Walk>, Memory>
    requires keep { length keep.now ≡ length net.now.links }
    requires link { link < length net.now.links }
    ensures some { IfOk result (λ found. IfSome found (λ steps. IsClosedWalk net.now (Kept keep.now) steps × (length steps ≤ 2 * points net.now))) }
    ensures none { IfOk result (λ found. IfNone found ((steps : ListOf StepOf) → IsClosedWalk net.now (Kept keep.now) steps → GoesOver steps link → ⊥)) }
{
    let atoms = atoms_of_link(net, link);
    for number in 0..atoms.count() {
        let point = nth_order(&atoms, number).from;
        if let Some(steps) = walk(alloc, net, keep, point, point, true)? {
            return Ok(Some(steps));
        }
    }
    Ok(None)
}
