//! The strong components of orders (Kosaraju and Sharir), in a time linear in them.
ghost use Rattle.net_orders.specs.Sequence.{AreMetAlong, ArePoints};
ghost use Rattle.order_closure.specs.Tables.{AreInRange};
ghost use Rattle.std.specs.List.{All};
ghost use Rattle.std.specs.Prelude.{IfOk, OnOk, length, ◌<◌, ◌≡◌};

use crate::sequence::Leaving;
use net_core::{Atom, Memory};
use std::alloc::Global;

/// The points from which a strict order leads to one from which orders lead back, one for each such order, in the sequence of
/// the orders: if there is any no timeline satisfies all orders. Nothing rests on the answer but which way a closure is looked
/// for first, and from where closed walks are.
///
/// # Errors
///
/// Out of memory.
pub fn points_on_cycles(
    alloc: Global,
    orders: &[Atom],
    components: &[Option<usize>],
) -> Result<Vec<u32>, Memory>
    requires { AreInRange (length components.now) orders.now }
    ensures { IfOk result (λ found. ArePoints (length components.now) found.items) }
{
    let mut found = Vec::new(alloc);
    for order in orders {
        let (from, to) = (order.from as usize, order.to as usize);
        if order.strict && components[from].is_some() && components[from] == components[to] {
            found.push(order.from)?;
        }
    }
    Ok(found)
}

/// The orders the other way round.
pub fn turned(alloc: Global, points: usize, orders: &[Atom]) -> Result<Vec<Atom>, Memory>
    requires { AreInRange points orders.now }
    ensures in_range { IfOk result (λ turned. AreInRange points turned.items) }
    ensures size { IfOk result (λ turned. length turned.items ≡ length orders.now) }
{
    let mut turned = Vec::new(alloc);
    for order in orders {
        let Atom { from, to, strict } = *order;
        let other = Atom {
            from: to,
            to: from,
            strict,
        };
        turned.push(other)?;
    }
    Ok(turned)
}

/// Adds a point to a component, unless it is in one, and notes that it was met. Whether it was.
pub fn meet(
    components: &mut [Option<usize>],
    point: usize,
    component: usize,
    met: &mut Vec<usize>,
) -> Result<bool, Memory>
    requires point { point < length components.old }
    requires met { ArePoints (length components.old) met.old.items }
    ensures { OnOk result (ArePoints (length components.old) met.new.items) }
{
    if components[point].is_some() {
        return Ok(false);
    }
    components[point] = Some(component);
    met.push(point)?;
    Ok(true)
}

/// Adds all points that lead to those that were met to a component, unless they are in one. Each is met once, and the number
/// of the order by which it was met is appended to `inward`: from the last back these lead to the points that were met first.
pub fn flood(
    entering: &Leaving,
    turned: &[Atom],
    component: usize,
    components: &mut [Option<usize>],
    met: &mut Vec<usize>,
    inward: &mut Vec<usize>,
) -> Result<(), Memory>
    requires met { AreMetAlong (length components.old) entering.now turned.now met.old.items }
    requires inward { All (λ k. k < length turned.now) inward.old.items }
    ensures met { OnOk result (ArePoints (length components.old) met.new.items) }
    ensures inward { OnOk result (All (λ k. k < length turned.now) inward.new.items) }
{
    'flood: for _ in 0..components.len() {
        let Some(point) = met.pop() else {
            return Ok(());
        };
        spread(entering, turned, point, component, components, met, inward)?;
    }
    Ok(())
}

/// Adds the points from which an order leads to this one to a component, unless they are in one.
fn spread(
    entering: &Leaving,
    turned: &[Atom],
    point: usize,
    component: usize,
    components: &mut [Option<usize>],
    met: &mut Vec<usize>,
    inward: &mut Vec<usize>,
) -> Result<(), Memory>
    requires met { AreMetAlong (length components.old) entering.now turned.now met.old.items }
    requires point { point < length components.old }
    requires inward { All (λ k. k < length turned.now) inward.old.items }
    ensures met { OnOk result (ArePoints (length components.old) met.new.items) }
    ensures inward { OnOk result (All (λ k. k < length turned.now) inward.new.items) }
{
    let mut next = entering.last[point];
    while let Some(k) = next {
        if meet(components, turned[k].to as usize, component, met)? {
            inward.push(k)?;
        }
        next = entering.before[k];
    }
    Ok(())
}
