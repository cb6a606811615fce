//! The ends of an order, and orders by the point at one of them.
ghost use Rattle.net_core.specs.Limits.{max_points};
ghost use Rattle.std.specs.List.Sorted.{IsPermutation};
ghost use Rattle.std.specs.Prelude.{IfOk, ◌≡◌, ◌≤◌};
ghost use Rattle.tml_score.specs.Ends.{far_end_of};

use net_core::Memory;
use net_orders::Order;
use point_index::{Index, PointOf};
use std::alloc::Global;

/// An end of an order.
#[derive(Clone, Copy)]
pub enum End {
    /// The point that comes first.
    From,
    /// The point that comes after it.
    To,
}

impl End {
    /// The point at the other end of an order.
    pub fn across(self, order: &Order) -> u32
        ensures { result ≡ far_end_of self order.now }
    {
        match self {
            End::From => order.atom.to,
            End::To => order.atom.from,
        }
    }
}

impl PointOf<Order> for End {
    ghost use Rattle.tml_score.specs.Ends.{point_at_end};

    ghost point_of = { point_at_end };

    fn point(self, order: &Order) -> u32 {
        match self {
            End::From => order.atom.from,
            End::To => order.atom.to,
        }
    }
}

/// A copy of orders by the point at this end, over this number of points.
///
/// # Errors
///
/// Out of memory.
pub fn by_point(
    alloc: Global,
    orders: &[Order],
    end: End,
    points: u32,
) -> Result<Index<Order, End>, Memory>
    requires { points ≤ max_points }
    ensures end { IfOk result (λ index. index.by ≡ end) }
    ensures points { IfOk result (λ index. index.points ≡ points) }
    ensures orders { IfOk result (λ index. IsPermutation orders.now index.items) }
{
    let copy = Vec::from_slice(alloc, orders)?;
    let index = Index::new(alloc, copy, end, points)?;
    Ok(index)
}
