//! The orders of a net, by the points that they leave and those that they lead to.
ghost use Rattle.std.specs.Prelude.{IfOk, OnOk, length, ◌<◌, ◌≡◌};
ghost use Rattle.tml_score.specs.Graph.{AddsOrders, AreOfPoint, AreAllOrders, IsFixedOrder, IsGraphOf, IsOrderOfLink, IsOfSome, by_end};

use crate::ends::{End, by_point};
use net_core::{Atom, Memory, Net};
use net_orders::{Order, atoms_of_link, fixed_orders, nth_order};
use point_index::Index;
use std::alloc::Global;

/// The orders of a net twice: by the points that they leave, and by those that they lead to.
#[derive(Drop)]
pub struct Graph {
    pub onward: Index<Order, End>,
    pub back: Index<Order, End>,
}

impl Graph {
    /// The orders of this net.
    ///
    /// # Errors
    ///
    /// Out of memory.
    pub fn new(alloc: Global, net: &Net) -> Result<Graph, Memory>
        ensures { IfOk result (IsGraphOf net.now) }
    {
        let points = 2 * net.intervals();
        let orders = orders_of(alloc, net)?;
        let onward = Index::new(alloc, orders, End::From, points)?;
        let back = by_point(alloc, onward.items(), End::To, points)?;
        Ok(Graph { onward, back })
    }

    /// The orders that have a point at this end.
    pub fn of_point(&self, end: End, point: u32) -> &[Order]
        requires { point < (by_end end self.now).points }
        ensures { AreOfPoint (by_end end self.now) point result.now }
    {
        match end {
            End::From => self.onward.of_point(point),
            End::To => self.back.of_point(point),
        }
    }
}

/// The orders of a net: those that hold without any link, and those of its links.
fn orders_of(alloc: Global, net: &Net) -> Result<Vec<Order>, Memory>
    ensures { IfOk result (λ orders. AreAllOrders net.now orders.items) }
{
    let fixed = fixed_orders(alloc, net)?;
    let mut orders = Vec::new(alloc);
    push_fixed(&mut orders, &fixed)?;
    push_links(&mut orders, net)?;
    Ok(orders)
}

/// Appends orders that are of no link.
fn push_fixed(orders: &mut Vec<Order>, fixed: &[Atom]) -> Result<(), Memory>
    ensures { OnOk result (AddsOrders (IsFixedOrder fixed.now) orders.old.items orders.new.items) }
{
    for atom in fixed {
        push_order(orders, *atom, None)?;
    }
    Ok(())
}

/// Appends the orders of all links.
fn push_links(orders: &mut Vec<Order>, net: &Net) -> Result<(), Memory>
    ensures { OnOk result (AddsOrders (IsOfSome net.now) orders.old.items orders.new.items) }
{
    for link in 0..net.links() {
        push_link(orders, net, link)?;
    }
    Ok(())
}

/// Appends the orders of a link.
fn push_link(orders: &mut Vec<Order>, net: &Net, link: u32) -> Result<(), Memory>
    requires { link < length net.now.links }
    ensures { OnOk result (AddsOrders (IsOrderOfLink net.now link) orders.old.items orders.new.items) }
{
    let atoms = atoms_of_link(net, link);
    for number in 0..atoms.count() {
        push_order(orders, nth_order(&atoms, number), Some(link))?;
    }
    Ok(())
}

/// Appends an order.
fn push_order(orders: &mut Vec<Order>, atom: Atom, link: Option<u32>) -> Result<(), Memory>
    ensures { OnOk result (AddsOrders (λ order. order ≡ record { atom = atom; link = link }) orders.old.items orders.new.items) }
{
    orders.push(Order { atom, link })?;
    Ok(())
}
