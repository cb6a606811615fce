//! Building the net of a document.
ghost use Rattle.net_build.specs.Built.{IntervalBounds, IsNetOf, net_link};
ghost use Rattle.net_core.specs.Bounds.{AreOrdered};
ghost use Rattle.std.specs.List.{All, AllZip};
ghost use Rattle.std.specs.Prelude.{IfOk, map, ◌≡◌};
ghost use Rattle.timex_dates.specs.Answers.{IsCivil};
ghost use Rattle.tml_refs.specs.Documents.{IsDocument};
ghost use Rattle.tml_refs.specs.View.{plain_interval};

use net_core::{Bounds, List, Memory, Net, NetLink};
use std::alloc::Global;
use timex_dates::bounds_of;
use tml_refs::{DocLink, Document, Interval};

/// The net of a document: of each interval what the calendar says, and the links in their order.
///
/// # Errors
///
/// Out of memory.
pub fn net_of(alloc: Global, document: &Document<'_>) -> Result<Net, Memory>
    ensures net { IfOk result (IsNetOf document.now) }
    ensures civil { IfOk result (λ net. All IsCivil net.bounds) }
{
    let bounds = all_bounds(alloc, document)?;
    let links = all_links(alloc, document)?;
    Ok(Net::new(bounds, links))
}

/// What the calendar says of each interval.
fn all_bounds(alloc: Global, document: &Document<'_>) -> Result<List<Bounds>, Memory>
    ensures document { IsDocument document.now }
    ensures bounds { IfOk result (AllZip IntervalBounds document.now.intervals) }
    ensures ordered { IfOk result (All AreOrdered) }
    ensures civil { IfOk result (All IsCivil) }
{
    let mut bounds = List::new(alloc);
    for i in 0..document.intervals() {
        bounds.push(interval_bounds(document.interval(i)))?;
    }
    Ok(bounds)
}

/// What the calendar says of an interval: nothing of an instance, and of a time what its value says.
fn interval_bounds(interval: Interval<'_>) -> Bounds
    ensures bounds { IntervalBounds (plain_interval interval.entry) result }
    ensures ordered { AreOrdered result }
    ensures civil { IsCivil result }
{
    match interval {
        Interval::Instance { .. } => Bounds::Free,
        Interval::Timex {
            kind,
            modifier,
            value,
            ..
        } => bounds_of(kind, modifier, value.as_ref()),
    }
}

/// The links, in their order.
fn all_links(alloc: Global, document: &Document<'_>) -> Result<List<NetLink>, Memory>
    ensures { IfOk result (λ links. links ≡ map net_link document.now.links) }
{
    let mut links = List::new(alloc);
    for k in 0..document.links() {
        let DocLink { a, rel, b } = document.link(k);
        links.push(NetLink { a, rel, b })?;
    }
    Ok(links)
}
