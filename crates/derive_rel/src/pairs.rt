//! The orders that each relation is, as bits.
ghost use Rattle.derive_rel.specs.Entailed.{TableEntails};
ghost use Rattle.derive_rel.specs.Pairs as spec;
ghost use Rattle.derive_rel.specs.Pairs.{mask_for};
ghost use Rattle.net_core.specs.Rels.{all_rels};
ghost use Rattle.net_core.specs.declared.rels.Rel.{Rel as RelOf};
ghost use Rattle.order_closure.specs.Between as bits;
ghost use Rattle.order_closure.specs.Between.{end_number};
ghost use Rattle.std.specs.Prelude.{IfOk, bit_and, map, true, ◌*◌, ◌+◌, ◌<◌, ◌==◌, ◌≡◌, ◌↔◌};

use named::Named;
use net_core::{End, Memory, PairOrder, Rel, orders_of};
use order_closure::{Closed, orders_between};
use std::alloc::Global;

/// A relation, with the bits of the orders that it is.
#[derive(Clone, Copy)]
pub struct Mask {
    pub rel: Rel,
    bits: u32,
}

impl Mask {
    /// A relation, with the bits of its orders.
    fn of(rel: Rel) -> Mask
        ensures { result ≡ mask_for rel }
    {
        let bits = mask_of(orders_of(rel));
        Mask { rel, bits }
    }

    /// Whether all orders of the relation are among these.
    pub fn is_in(self, given: u32) -> bool
        ensures { result ≡ (bit_and given self.bits == self.bits) }
    {
        given & self.bits == self.bits
    }
}

/// The relations of TLINK that hold between two intervals in all timelines that keep a table.
#[derive(Clone, Copy)]
pub struct RelSet {
    /// The orders that the table gives between the intervals, as bits.
    given: u32,
}

impl RelSet {
    /// Whether the relation is one of them.
    pub fn has(&self, rel: Rel) -> bool
        ensures { result ≡ spec.has self.now rel }
    {
        Mask::of(rel).is_in(self.given)
    }
}

/// The relations that hold between two intervals in all timelines that keep a table: those all of whose orders its cells
/// give.
pub fn entailed(closed: &Closed, a: u32, b: u32) -> RelSet
    requires a { 2 * a + 1 < closed.now.points }
    requires b { 2 * b + 1 < closed.now.points }
    ensures { (r : RelOf) → (spec.has result r ≡ true) ↔ TableEntails closed.now a r b }
{
    RelSet {
        given: orders_between(closed, a, b),
    }
}

/// All relations with the bits of their orders, in the order of the table of relations.
///
/// # Errors
///
/// Out of memory.
pub fn masks(alloc: Global) -> Result<Vec<Mask>, Memory>
    ensures { IfOk result (λ masks. masks.items ≡ map mask_for all_rels) }
{
    let mut masks = Vec::new(alloc);
    for rel in Rel::all() {
        masks.push(Mask::of(*rel))?;
    }
    Ok(masks)
}

/// The bits of some orders.
fn mask_of(orders: &[PairOrder]) -> u32
    ensures { result ≡ bits.mask_of orders.now }
{
    match orders.split_first() {
        Some((first, rest)) => 1 << bit_number(*first) | mask_of(rest),
        None => 0,
    }
}

/// The bit of an order, of 0 to 15.
fn bit_number(order: PairOrder) -> u32
    ensures number { result ≡ bits.bit_number order }
    ensures small { result < 16 }
{
    match order {
        PairOrder::ANoLater(p, q) => 4 * number_of(p) + number_of(q),
        PairOrder::ABefore(p, q) => 4 * number_of(p) + 2 + number_of(q),
        PairOrder::BNoLater(p, q) => 8 + (4 * number_of(p) + number_of(q)),
        PairOrder::BBefore(p, q) => 8 + (4 * number_of(p) + 2 + number_of(q)),
    }
}

/// The number of a point of an interval, 0 or 1.
fn number_of(end: End) -> u32
    ensures number { result ≡ end_number end }
    ensures small { result < 2 }
{
    match end {
        End::Start => 0,
        End::Finish => 1,
    }
}
