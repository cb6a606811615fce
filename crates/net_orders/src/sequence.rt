//! A sequence of orders, by a search along them.
ghost use Rattle.net_orders.specs.Sequence.{AreLeavingLists, IsSequence, IsVisit};
ghost use Rattle.net_core.specs.Atoms.{IsInRange};
ghost use Rattle.order_closure.specs.Tables.{AreInRange};
ghost use Rattle.std.specs.List.{All};
ghost use Rattle.std.specs.Prelude.{IfOk, OnOk, length, ◌<◌, ◌≡◌};

use net_core::{Atom, Memory};
use std::alloc::Global;

/// The numbers of orders, mostly in a sequence in which all orders that leave the second point of an order come before it.
#[derive(Drop)]
pub struct Sequence {
    pub numbers: Vec<usize>,
    /// For each point how many orders the sequence had, and one, when the search left the point for good: those that leave
    /// the point are the last of them. It is 0 before that.
    left: Vec<usize>,
}

impl Sequence {
    /// Whether an order leads back to a point that was left later, or to where it comes from: then orders lead from there to
    /// this one, and all of their points are in one strong component.
    pub fn leads_back(&self, order: Atom) -> bool
        requires { IsInRange (length self.now.left.items) order }
    {
        self.left[order.from as usize] <= self.left[order.to as usize]
    }
}

/// The numbers of orders, mostly in a sequence in which all orders that leave the second point of an order come before it. It is
/// found by a search along the orders, depth first.
///
/// # Errors
///
/// Out of memory.
pub fn sequence_of(alloc: Global, points: u32, orders: &[Atom]) -> Result<Sequence, Memory>
    requires { AreInRange points orders.now }
    ensures { IfOk result (IsSequence points orders.now) }
{
    let leaving = Leaving::new(alloc, points as usize, orders)?;
    let mut seen = vec![in alloc; false; points as usize]?;
    let mut path = Vec::new(alloc);
    let mut sequence = Sequence {
        numbers: Vec::new(alloc),
        left: vec![in alloc; 0usize; points as usize]?,
    };
    for point in 0..points as usize {
        enter(&leaving, point, &mut seen, &mut path)?;
        descend(&leaving, orders, &mut seen, &mut path, &mut sequence)?;
    }
    Ok(sequence)
}

/// The orders that leave each point, as lists by their numbers.
#[derive(Drop)]
pub struct Leaving {
    /// For each point the last order that leaves it.
    pub last: Vec<Option<usize>>,
    /// For each order the one before it that leaves the same point.
    pub before: Vec<Option<usize>>,
}

impl Leaving {
    /// The lists of some orders.
    ///
    /// # Errors
    ///
    /// Out of memory.
    pub fn new(alloc: Global, points: usize, orders: &[Atom]) -> Result<Leaving, Memory>
        requires { AreInRange points orders.now }
        ensures leaving { IfOk result AreLeavingLists }
        ensures points { IfOk result (λ leaving. length leaving.last.items ≡ points) }
        ensures orders { IfOk result (λ leaving. length leaving.before.items ≡ length orders.now) }
    {
        let mut last = vec![in alloc; None; points]?;
        let mut before = Vec::new(alloc);
        for (k, order) in orders.iter().enumerate() {
            before.push(last[order.from as usize])?;
            last[order.from as usize] = Some(k);
        }
        Ok(Leaving { last, before })
    }
}

/// A point that the search entered, and the order by which it leaves it next.
#[derive(Clone, Copy)]
struct Visit {
    point: usize,
    next: Option<usize>,
}

/// Enters a point, unless it was entered.
fn enter(
    leaving: &Leaving,
    point: usize,
    seen: &mut [bool],
    path: &mut Vec<Visit>,
) -> Result<(), Memory>
    requires leaving { AreLeavingLists leaving.now }
    requires point { point < length leaving.now.last.items }
    requires seen { length seen.old ≡ length leaving.now.last.items }
    requires path { All (IsVisit leaving.now) path.old.items }
    ensures { OnOk result (All (IsVisit leaving.now) path.new.items) }
{
    if seen[point] {
        return Ok(());
    }
    seen[point] = true;
    let next = leaving.last[point];
    path.push(Visit { point, next })?;
    Ok(())
}

/// Follows orders to points that were not entered, and back if a point has no more. A step leaves a point by an order, or for
/// good: so there are no more steps than points and orders.
fn descend(
    leaving: &Leaving,
    orders: &[Atom],
    seen: &mut [bool],
    path: &mut Vec<Visit>,
    sequence: &mut Sequence,
) -> Result<(), Memory>
    requires leaving { AreLeavingLists leaving.now }
    requires orders { length leaving.now.before.items ≡ length orders.now }
    requires in_range { AreInRange (length leaving.now.last.items) orders.now }
    requires seen { length seen.old ≡ length leaving.now.last.items }
    requires path { All (IsVisit leaving.now) path.old.items }
    requires sequence { IsSequence (length leaving.now.last.items) orders.now sequence.old }
    ensures path { OnOk result (All (IsVisit leaving.now) path.new.items) }
    ensures sequence { OnOk result (IsSequence (length leaving.now.last.items) orders.now sequence.new) }
{
    let most = leaving.last.len() + orders.len();
    'descent: for _ in 0..most {
        let Some(visit) = path.pop() else {
            return Ok(());
        };
        match visit.next {
            Some(k) => follow(leaving, orders, visit.point, k, seen, path)?,
            None => leave(leaving, visit.point, sequence)?,
        }
    }
    Ok(())
}

/// Follows an order from a point that the search stays in.
fn follow(
    leaving: &Leaving,
    orders: &[Atom],
    point: usize,
    k: usize,
    seen: &mut [bool],
    path: &mut Vec<Visit>,
) -> Result<(), Memory>
    requires leaving { AreLeavingLists leaving.now }
    requires orders { length leaving.now.before.items ≡ length orders.now }
    requires in_range { AreInRange (length leaving.now.last.items) orders.now }
    requires point { point < length leaving.now.last.items }
    requires k { k < length orders.now }
    requires seen { length seen.old ≡ length leaving.now.last.items }
    requires path { All (IsVisit leaving.now) path.old.items }
    ensures { OnOk result (All (IsVisit leaving.now) path.new.items) }
{
    let next = leaving.before[k];
    path.push(Visit { point, next })?;
    enter(leaving, orders[k].to as usize, seen, path)
}

/// Leaves a point for good: appends the orders that leave it.
fn leave(leaving: &Leaving, point: usize, sequence: &mut Sequence) -> Result<(), Memory>
    requires leaving { AreLeavingLists leaving.now }
    requires point { point < length leaving.now.last.items }
    requires numbers { All (λ k. k < length leaving.now.before.items) sequence.old.numbers.items }
    requires left { length sequence.old.left.items ≡ length leaving.now.last.items }
    ensures numbers { OnOk result (All (λ k. k < length leaving.now.before.items) sequence.new.numbers.items) }
    ensures left { OnOk result (length sequence.new.left.items ≡ length leaving.now.last.items) }
{
    push_leaving(leaving, point, &mut sequence.numbers)?;
    sequence.left[point] = sequence.numbers.len() + 1;
    Ok(())
}

/// Appends the orders that leave a point.
fn push_leaving(leaving: &Leaving, point: usize, numbers: &mut Vec<usize>) -> Result<(), Memory>
    requires leaving { AreLeavingLists leaving.now }
    requires point { point < length leaving.now.last.items }
    requires numbers { All (λ k. k < length leaving.now.before.items) numbers.old.items }
    ensures { OnOk result (All (λ k. k < length leaving.now.before.items) numbers.new.items) }
{
    let mut next = leaving.last[point];
    while let Some(k) = next {
        numbers.push(k)?;
        next = leaving.before[k];
    }
    Ok(())
}
