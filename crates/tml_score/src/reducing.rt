//! The links of a net without those that follow from others.
ghost use Rattle.clash.specs.Closures.{IsClosureOf};
ghost use Rattle.net_core.specs.Entailment.{HasTimeline};
ghost use Rattle.net_core.specs.Walks.{Kept};
ghost use Rattle.std.specs.Prelude.{IfOk, OnOk, length, ◌<◌};
ghost use Rattle.tml_score.specs.Graph.{IsGraphOf};
ghost use Rattle.tml_score.specs.Reduced.{IsReduced};
ghost use Rattle.tml_score.specs.Reducing.{AreDecided, DecidesLink};
ghost use Rattle.tml_score.specs.Search.{Decides, HaveRoom, IsAsked, IsReady, basis_of};
ghost use Rattle.tml_score.specs.Trees.{AreTrees};

use crate::graph::Graph;
use crate::reached::Sides;
use crate::search::{AskedOrder, KeptLinks};
use crate::trees::Trees;
use clash::{CloseFault, close, marked};
use net_core::{List, Memory, Net};
use net_orders::{atoms_of_link, nth_order};
use order_closure::Closed;
use std::alloc::Global;

/// The numbers of the links of a net that stay, rising: the links are taken in their order, and each that follows
/// from those beside it is left out.
///
/// # Errors
///
/// Out of memory.
pub fn reduce(alloc: Global, net: &Net) -> Result<List<u32>, Memory>
    requires { HasTimeline net.now }
    ensures { IfOk result (IsReduced net.now) }
{
    match close(alloc, net) {
        Ok(table) => reduced_by(alloc, net, &table),
        Err(CloseFault::Clash(_)) => unreachable!(),
        Err(CloseFault::Memory) => Err(Memory),
    }
}

/// The same, by the closure of the net. For an order between two places, the search tries the orders that leave its first
/// place until one is enough. So if many orders leave one place, as in a hub or a class, it takes time in the square of their
/// number. An order within a place is searched there if the trees don't show that it follows.
///
/// # Errors
///
/// Out of memory.
pub fn reduced_by(alloc: Global, net: &Net, table: &Closed) -> Result<List<u32>, Memory>
    requires closure { IsClosureOf net.now table.now }
    requires fits { HasTimeline net.now }
    ensures { IfOk result (IsReduced net.now) }
{
    let graph = Graph::new(alloc, net)?;
    let keep = marks(alloc, net, table, &graph)?;
    marked(alloc, net, &keep)
}

/// A mark for each link: those that stay are kept.
fn marks(alloc: Global, net: &Net, table: &Closed, graph: &Graph) -> Result<Vec<bool>, Memory>
    requires closure { IsClosureOf net.now table.now }
    requires fits { HasTimeline net.now }
    requires graph { IsGraphOf net.now graph.now }
    ensures { IfOk result (λ keep. AreDecided net.now (length net.now.links) keep.items) }
{
    let mut keep = vec![in alloc; true; net.links() as usize]?;
    let mut sides = Sides::new(alloc, table.points())?;
    let all = KeptLinks {
        net,
        table,
        graph,
        keep: &keep,
    };
    let mut trees = Trees::new(alloc, &all)?;
    for link in 0..net.links() {
        let kept = KeptLinks {
            net,
            table,
            graph,
            keep: &keep,
        };
        if link_follows(&kept, link, &mut trees, &mut sides)? {
            keep[link as usize] = false;
            trees.cut(link);
        }
    }
    Ok(keep)
}

/// Whether a link follows from the others that are kept: whether all its orders do.
fn link_follows(
    kept: &KeptLinks<'_>,
    link: u32,
    trees: &mut Trees,
    sides: &mut Sides,
) -> Result<bool, Memory>
    requires ready { IsReady (basis_of kept.now) }
    requires link { link < length kept.now.net.now.links }
    requires kept { Kept kept.now.keep.now link }
    requires trees { AreTrees (basis_of kept.now) trees.old }
    requires room { HaveRoom (basis_of kept.now) sides.old }
    ensures decides { IfOk result (DecidesLink kept.now.net.now kept.now.keep.now link) }
    ensures trees { OnOk result (AreTrees (basis_of kept.now) trees.new) }
    ensures room { OnOk result (HaveRoom (basis_of kept.now) sides.new) }
{
    trees.refresh(kept, link)?;
    let atoms = atoms_of_link(kept.net, link);
    for number in 0..atoms.count() {
        let order = nth_order(&atoms, number);
        if !order_follows(kept, AskedOrder { link, order }, trees, sides)? {
            return Ok(false);
        }
    }
    Ok(true)
}

/// Whether an order of a link follows from the others that are kept, by what the trees show and a search.
fn order_follows(
    kept: &KeptLinks<'_>,
    asked: AskedOrder,
    trees: &mut Trees,
    sides: &mut Sides,
) -> Result<bool, Memory>
    requires ready { IsReady (basis_of kept.now) }
    requires asked { IsAsked (basis_of kept.now) asked }
    requires trees { AreTrees (basis_of kept.now) trees.old }
    requires room { HaveRoom (basis_of kept.now) sides.old }
    ensures decides { IfOk result (Decides (basis_of kept.now) asked) }
    ensures trees { OnOk result (AreTrees (basis_of kept.now) trees.new) }
    ensures room { OnOk result (HaveRoom (basis_of kept.now) sides.new) }
{
    let known = trees.known(kept, asked);
    let follows = kept.follows(asked, &known, sides)?;
    let reached = if follows { sides.onward.len() } else { 0 };
    trees.spend(reached);
    Ok(follows)
}
