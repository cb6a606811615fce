//! Orders of points that are at one place.
ghost use Rattle.net_core.specs.Nets.{points};
ghost use Rattle.std.specs.Prelude.{IfOk, OnOk, length, slice_index, ◌<◌, ◌≡◌};
ghost use Rattle.tml_score.specs.Search.{IsReady, basis_of};
ghost use Rattle.net_orders.specs.Sequence.{ArePoints};
ghost use Rattle.tml_score.specs.Ties.{AreOrders, AreOrdersBy, AreTies};

use crate::ends::{End, by_point};
use crate::search::KeptLinks;
use net_core::Memory;
use net_orders::Order;
use order_closure::Cell;
use point_index::Index;
use std::alloc::Global;
use std::cmp::Reverse;

/// The orders of points that are at one place, called ties here: those of the last link first, and those of no link last.
/// The root of a point is the first point at its place.
#[derive(Drop)]
pub struct Ties {
    pub orders: Vec<Order>,
    pub onward: Index<Order, End>,
    pub back: Index<Order, End>,
    pub roots: Vec<u32>,
}

impl Ties {
    /// The ties of a net.
    ///
    /// # Errors
    ///
    /// Out of memory.
    pub fn new(alloc: Global, kept: &KeptLinks<'_>) -> Result<Ties, Memory>
        requires { IsReady (basis_of kept.now) }
        ensures { IfOk result (AreTies (basis_of kept.now)) }
    {
        let orders = tied(alloc, kept)?;
        let points = kept.table.points();
        let onward = by_point(alloc, &orders, End::From, points)?;
        let back = by_point(alloc, &orders, End::To, points)?;
        let roots = roots_of(alloc, kept, &onward)?;
        Ok(Ties {
            orders,
            onward,
            back,
            roots,
        })
    }

    /// The first point at the place of a point.
    pub fn root(&self, point: u32) -> u32
        requires { point < length self.now.roots.items }
        ensures { result ≡ slice_index self.now.roots.items point }
    {
        self.roots[point as usize]
    }

    /// The ties that have a point at this end.
    pub fn of_point(&self, kept: &KeptLinks<'_>, end: End, point: u32) -> &[Order]
        requires ties { AreTies (basis_of kept.now) self.now }
        requires point { point < points kept.now.net.now }
        ensures { AreOrders (basis_of kept.now) result.now }
    {
        match end {
            End::From => self.onward.of_point(point),
            End::To => self.back.of_point(point),
        }
    }
}

/// The orders of points that are at one place, those of the last link first.
fn tied(alloc: Global, kept: &KeptLinks<'_>) -> Result<Vec<Order>, Memory>
    requires { IsReady (basis_of kept.now) }
    ensures { IfOk result (λ ties. AreOrders (basis_of kept.now) ties.items) }
{
    let mut ties = ties_of(alloc, kept)?;
    ties.sort_unstable_by_key(|order| Reverse(order.link));
    Ok(ties)
}

/// The same, in no order.
fn ties_of(alloc: Global, kept: &KeptLinks<'_>) -> Result<Vec<Order>, Memory>
    requires { IsReady (basis_of kept.now) }
    ensures { IfOk result (λ ties. AreOrders (basis_of kept.now) ties.items) }
{
    let mut ties = Vec::new(alloc);
    for order in kept.graph.onward.items() {
        let apart = kept.table.cell(order.atom.to, order.atom.from) == Cell::Free;
        if !apart {
            ties.push(*order)?;
        }
    }
    Ok(ties)
}

/// For each point the first one at its place: the first from which ties lead to it.
fn roots_of(
    alloc: Global,
    kept: &KeptLinks<'_>,
    onward: &Index<Order, End>,
) -> Result<Vec<u32>, Memory>
    requires ready { IsReady (basis_of kept.now) }
    requires onward { AreOrdersBy (basis_of kept.now) onward.now }
    ensures { IfOk result (λ roots. length roots.items ≡ points kept.now.net.now) }
{
    let mut roots = own_roots(alloc, kept.table.points())?;
    let mut met = Vec::new(alloc);
    for root in 0..kept.table.points() {
        if roots[root as usize] == root {
            met.push(root)?;
            flood(kept, onward, root, &mut roots, &mut met)?;
        }
    }
    Ok(roots)
}

/// Each point as its own root.
fn own_roots(alloc: Global, points: u32) -> Result<Vec<u32>, Memory>
    ensures { IfOk result (λ roots. length roots.items ≡ points) }
{
    let mut roots = Vec::new(alloc);
    for point in 0..points {
        roots.push(point)?;
    }
    Ok(roots)
}

/// Gives a root to all points that ties lead to from those that were met.
fn flood(
    kept: &KeptLinks<'_>,
    onward: &Index<Order, End>,
    root: u32,
    roots: &mut [u32],
    met: &mut Vec<u32>,
) -> Result<(), Memory>
    requires ready { IsReady (basis_of kept.now) }
    requires onward { AreOrdersBy (basis_of kept.now) onward.now }
    requires roots { length roots.old ≡ points kept.now.net.now }
    requires met { ArePoints (points kept.now.net.now) met.old.items }
    ensures met { OnOk result (ArePoints (points kept.now.net.now) met.new.items) }
{
    'flood: for _ in 0..roots.len() {
        let Some(point) = met.pop() else {
            return Ok(());
        };
        meet_all(kept, onward, point, root, roots, met)?;
    }
    Ok(())
}

/// Gives a root to the points that ties lead to from one, and notes those that had none but themselves.
fn meet_all(
    kept: &KeptLinks<'_>,
    onward: &Index<Order, End>,
    point: u32,
    root: u32,
    roots: &mut [u32],
    met: &mut Vec<u32>,
) -> Result<(), Memory>
    requires ready { IsReady (basis_of kept.now) }
    requires onward { AreOrdersBy (basis_of kept.now) onward.now }
    requires point { point < points kept.now.net.now }
    requires roots { length roots.old ≡ points kept.now.net.now }
    requires met { ArePoints (points kept.now.net.now) met.old.items }
    ensures met { OnOk result (ArePoints (points kept.now.net.now) met.new.items) }
{
    for order in onward.of_point(point) {
        meet(order.atom.to, root, roots, met)?;
    }
    Ok(())
}

/// Gives a root to a later point that has none but itself, and notes it.
fn meet(point: u32, root: u32, roots: &mut [u32], met: &mut Vec<u32>) -> Result<(), Memory>
    requires point { point < length roots.old }
    requires met { ArePoints (length roots.old) met.old.items }
    ensures met { OnOk result (ArePoints (length roots.old) met.new.items) }
{
    if root < point && roots[point as usize] == point {
        roots[point as usize] = root;
        met.push(point)?;
    }
    Ok(())
}
