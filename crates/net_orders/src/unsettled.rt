//! The link with which ranks no longer settle soon.
ghost use Rattle.net_core.specs.Nets.{points};
ghost use Rattle.order_closure.specs.Tables.{AreInRange};
ghost use Rattle.std.specs.Prelude.{IfOk, IfSome, length, ◌<◌, ◌≤◌};

use crate::least::raise_in_turns;
use net_core::{Atom, Memory, Net};
use std::alloc::Global;

/// How many turns ranks are given to settle with the first orders alone: mostly they do in one or two.
const TURNS: u32 = 8;

/// How many orders are tried at first.
const FIRST_STEP: usize = 64;

/// A link with which ranks no longer settle soon, though they do with the links before it. The orders of links follow
/// `fixed` others: mostly the first link that clashes with those before it. It is found by galloping search: what has settled
/// is doubled until it no longer does, and then halved. Nothing rests on the answer but which way a clash is looked for first.
///
/// # Errors
///
/// Out of memory.
pub fn first_unsettled(
    alloc: Global,
    net: &Net,
    fixed: usize,
    orders: &[Atom],
    sequence: &[usize],
) -> Result<Option<u32>, Memory>
    requires { AreInRange (points net.now) orders.now }
    ensures { IfOk result (λ found. IfSome found (λ link. link < length net.now.links)) }
{
    let points = 2 * net.intervals() as usize;
    let first = fixed.min(orders.len());
    let mut low = first;
    let mut high = orders.len();
    while low < high {
        let step = (low - first).max(FIRST_STEP);
        let middle = low + step.min((high - low) / 2);
        if settle_soon(alloc, points, &orders[..=middle], sequence)? {
            low = middle + 1;
        } else {
            high = middle;
        }
    }
    Ok(link_of(net, fixed, low))
}

/// Whether ranks settle soon with these orders.
fn settle_soon(
    alloc: Global,
    points: usize,
    orders: &[Atom],
    sequence: &[usize],
) -> Result<bool, Memory>
    requires { AreInRange points orders.now }
{
    let mut ranks = vec![in alloc; 0u32; points]?;
    Ok(raise_in_turns(&mut ranks, orders, sequence, TURNS))
}

/// The link that the order of this number is of, if the orders of links follow `fixed` others.
fn link_of(net: &Net, fixed: usize, number: usize) -> Option<u32>
    ensures { IfSome result (λ link. link < length net.now.links) }
{
    let mut left = number.checked_sub(fixed)?;
    for link in 0..net.links() {
        let count = net.link(link).rel.atom_count() as usize;
        if left < count {
            return Some(link);
        }
        left -= count;
    }
    None
}
