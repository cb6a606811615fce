//! A check of timelines that show which base relations two intervals can have.
ghost use Rattle.net_core.specs.Nets.{intervals};
ghost use Rattle.std.specs.List.{All};
ghost use Rattle.std.specs.Prelude.{IsTrue, ◌<◌, ◌↔◌};
ghost use Rattle.tml_possible.specs.Possible.{AreSome, AreTrueItems, IsTrueItem, rels_of};

use crate::PossibleItem;
use net_core::{Net, Rel, ends_at, holds, satisfies};

/// The base relations, in the order of the table of relations.
const BASE_RELS: [Rel; 13] = [
    Rel::Before,
    Rel::After,
    Rel::Includes,
    Rel::IsIncluded,
    Rel::Simultaneous,
    Rel::Ibefore,
    Rel::Iafter,
    Rel::Begins,
    Rel::BegunBy,
    Rel::Ends,
    Rel::EndedBy,
    Rel::Overlaps,
    Rel::OverlappedBy,
];

/// Whether the relations of a list are base relations, each after the one before it in the order of the table of relations,
/// and all its ranks fit the net and have their relation between the intervals. It takes no memory, and asks nothing of what
/// made the list.
pub fn check_possible(net: &Net, a: u32, b: u32, list: &[PossibleItem]) -> bool
    requires a { a < intervals net.now }
    requires b { b < intervals net.now }
    ensures { IsTrue result ↔ AreTrueItems net.now a b list.now }
{
    let ordered = are_in_order(list, &BASE_RELS);
    ordered & are_true_items(net, a, b, list)
}

/// Whether all ranks of a list fit the net and have their relation between the intervals.
fn are_true_items(net: &Net, a: u32, b: u32, list: &[PossibleItem]) -> bool
    requires a { a < intervals net.now }
    requires b { b < intervals net.now }
    ensures { IsTrue result ↔ All (IsTrueItem net.now a b) list.now }
{
    list.iter().all(|item| is_true_item(net, a, b, item))
}

/// Whether the relations of a list stand among these, in their order.
#[tactic(auto, using(crate::proofs::Lists::first_is_next))]
fn are_in_order(list: &[PossibleItem], bases: &[Rel]) -> bool
    ensures { IsTrue result ↔ AreSome (rels_of list.now) bases.now }
{
    let Some((item, rest)) = list.split_first() else {
        return true;
    };
    let Some((base, later)) = bases.split_first() else {
        return false;
    };
    if item.rel == *base {
        are_in_order(rest, later)
    } else {
        are_in_order(list, later)
    }
}

/// Whether the ranks of an item fit the net and have its relation between the intervals.
fn is_true_item(net: &Net, a: u32, b: u32, item: &PossibleItem) -> bool
    requires a { a < intervals net.now }
    requires b { b < intervals net.now }
    ensures { IsTrue result ↔ IsTrueItem net.now a b item.now }
{
    let ranks = item.ranks.as_slice();
    satisfies(net, ranks) && holds(item.rel, ends_at(ranks, a), ends_at(ranks, b))
}
