//! The orders of points that the steps of a walk are over.
ghost use Rattle.net_orders.specs.Orders as spec;
ghost use Rattle.net_orders.specs.Dates.{ExtendsOrders};
ghost use Rattle.net_orders.specs.Orders.{AppendsOrders, AreFixed, AreStepOrders, FitsBut, HoldsBut, IsTrueBut};
ghost use Rattle.net_core.specs.Atoms.{IsInRange, atoms_in};
ghost use Rattle.net_core.specs.Fits.{Fits, KeepsLink};
ghost use Rattle.net_core.specs.Nets.{points};
ghost use Rattle.net_core.specs.Relations.{Timeline};
ghost use Rattle.order_closure.specs.Tables.{AreInRange, SatisfiesAll};
ghost use Rattle.std.specs.Prelude.{IfOk, OnOk, length, ◌++◌, ◌↔◌, ◌<◌, ◌≡◌, ◌≢◌, ℕ};

use crate::calendar::calendar_orders;
use crate::links::{atoms_of_link, nth_order, span_order};
use net_core::{Atom, Atoms, List, Memory, Net, Step, step_atom};
use std::alloc::Global;

/// An order of points, and the link that it is of, if it is of one.
#[derive(Clone, Copy)]
pub struct Order {
    pub atom: Atom,
    pub link: Option<u32>,
}

impl Order {
    /// Whether it is an order of this link.
    pub fn is_of(self, link: u32) -> bool
        ensures { result ≡ spec.is_of link self }
    {
        match self.link {
            Some(own) => own == link,
            None => false,
        }
    }
}

/// The orders that steps are over, in the order of the steps: of a step over a link all orders of the link, of another
/// one its own.
///
/// # Errors
///
/// Out of memory.
pub fn orders_of(alloc: Global, net: &Net, steps: &[Step]) -> Result<List<Order>, Memory>
    ensures { IfOk result (AreStepOrders net.now steps.now) }
{
    let mut orders = List::new(alloc);
    for step in steps {
        push_step(&mut orders, net, step)?;
    }
    Ok(orders)
}

/// Appends the orders that a step is over.
fn push_step(orders: &mut List<Order>, net: &Net, step: &Step) -> Result<(), Memory>
    ensures { OnOk result (AppendsOrders (points net.now) (λ omitted t. HoldsBut net.now omitted step.now t) orders.old orders.new) }
{
    if let Some(link) = step.link() {
        if link < net.links() {
            return push_link(orders, net, link);
        }
    } else if let Some(atom) = step_atom(net, step) {
        return orders.push(Order { atom, link: None });
    }
    Ok(())
}

/// Appends the orders of a link.
fn push_link(orders: &mut List<Order>, net: &Net, link: u32) -> Result<(), Memory>
    requires { link < length net.now.links }
    ensures { OnOk result (AppendsOrders (points net.now) (λ omitted t. link ≢ omitted → KeepsLink net.now t link) orders.old orders.new) }
{
    let atoms = atoms_of_link(net, link);
    for number in 0..atoms.count() {
        let atom = nth_order(&atoms, number);
        orders.push(Order {
            atom,
            link: Some(link),
        })?;
    }
    Ok(())
}

/// The orders that hold without any link: those of the calendar, and that each interval starts before it ends.
///
/// # Errors
///
/// Out of memory.
pub fn fixed_orders(alloc: Global, net: &Net) -> Result<Vec<Atom>, Memory>
    ensures { IfOk result (λ fixed. AreFixed net.now fixed.items) }
{
    let mut fixed = calendar_orders(alloc, net)?;
    for interval in 0..net.intervals() {
        fixed.push(span_order(interval))?;
    }
    Ok(fixed)
}

/// All orders of a net: those that hold without any link, and those of the links.
///
/// # Errors
///
/// Out of memory.
pub fn all_orders(alloc: Global, net: &Net, fixed: &[Atom]) -> Result<Vec<Atom>, Memory>
    requires { AreFixed net.now fixed.now }
    ensures in_range { IfOk result (λ orders. AreInRange (points net.now) orders.items) }
    ensures exact { IfOk result (λ orders. (t : Timeline) → SatisfiesAll orders.items t ↔ Fits net.now t) }
{
    let mut orders = Vec::from_slice(alloc, fixed)?;
    for link in 0..net.links() {
        push_atoms(&mut orders, atoms_of_link(net, link))?;
    }
    Ok(orders)
}

/// Appends the orders that a relation is.
fn push_atoms(orders: &mut Vec<Atom>, atoms: Atoms) -> Result<(), Memory>
    ensures { OnOk result (orders.new.items ≡ orders.old.items ++ atoms_in atoms) }
{
    for number in 0..atoms.count() {
        orders.push(nth_order(&atoms, number))?;
    }
    Ok(())
}

/// The orders that are fixed, and others but those of one link.
///
/// # Errors
///
/// Out of memory.
pub fn orders_but(
    alloc: Global,
    points: usize,
    orders: &[Order],
    fixed: &[Atom],
    omitted: u32,
) -> Result<Vec<Atom>, Memory>
    requires orders { spec.AreOrdersBelow points orders.now }
    requires fixed { AreInRange points fixed.now }
    ensures in_range { IfOk result (λ left. AreInRange points left.items) }
    ensures exact { IfOk result (λ left. (t : Timeline) → SatisfiesAll left.items t ↔ FitsBut orders.now fixed.now omitted t) }
{
    let mut left = Vec::from_slice(alloc, fixed)?;
    for order in orders {
        push_unless(*order, omitted, &mut left)?;
    }
    Ok(left)
}

/// Appends an order, unless it is of the link that is left out.
fn push_unless(order: Order, omitted: u32, left: &mut Vec<Atom>) -> Result<(), Memory>
    ensures { OnOk result ((n : ℕ) → AreInRange n left.old.items → IsInRange n order.atom
        → ExtendsOrders n (IsTrueBut omitted order) left.old.items left.new.items) }
{
    if order.is_of(omitted) {
        return Ok(());
    }
    left.push(order.atom)?;
    Ok(())
}
