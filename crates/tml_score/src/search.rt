//! Whether an order of a link follows from the other links that are kept.
ghost use Rattle.net_core.specs.Nets.{points};
ghost use Rattle.std.specs.Prelude.{IfOk, IsTrue, OnOk, length, slice_index, true, ◌<◌, ◌≡◌, ◌≢◌, ◌↔◌};
ghost use Rattle.tml_score.specs.Search as spec;
ghost use Rattle.tml_score.specs.Search.{Decides, GoesOn, HaveRoom, IsAsked, IsReady, IsSearch, IsRemainingWay, IsLed, basis_of};
ghost use Rattle.tml_score.specs.Trees.{IsKnown};

use crate::graph::Graph;
use crate::reached::{ReachedPoints, Sides};
use crate::trees::Known;
use net_core::{Atom, Memory, Net};
use net_orders::Order;
use order_closure::{Cell, Closed};

/// The links of a net that are kept, which say the same as all, with the closure of the net and all its orders.
#[derive(Clone, Copy)]
pub struct KeptLinks<'a> {
    pub net: &'a Net,
    pub table: &'a Closed,
    pub graph: &'a Graph,
    pub keep: &'a [bool],
}

/// An order of a link that is kept.
#[derive(Clone, Copy)]
pub struct AskedOrder {
    pub link: u32,
    pub order: Atom,
}

impl KeptLinks<'_> {
    /// Whether an order of a link follows from the other links that are kept.
    ///
    /// # Errors
    ///
    /// Out of memory.
    pub fn follows(
        &self,
        asked: AskedOrder,
        known: &Known<'_>,
        sides: &mut Sides,
    ) -> Result<bool, Memory>
        requires ready { IsReady (basis_of self.now) }
        requires asked { IsAsked (basis_of self.now) asked }
        requires known { IsKnown (basis_of self.now) asked known.now }
        requires room { HaveRoom (basis_of self.now) sides.old }
        ensures decides { IfOk result (Decides (basis_of self.now) asked) }
        ensures room { OnOk result (HaveRoom (basis_of self.now) sides.new) }
    {
        if asked.order.from == asked.order.to {
            return Ok(true);
        }
        if !asked.order.strict && self.table.cell(asked.order.to, asked.order.from) != Cell::Free {
            return self.meets(asked, known, &mut sides.onward, &mut sides.back);
        }
        self.leads(asked, &mut sides.onward)
    }

    /// Whether an order of two points follows, of which the first is before the other.
    ///
    /// From the first point of the order the search goes on over orders that remain without the link, to points that are
    /// at one place with the first in every timeline. An order to the last point or to a later one leads out. There the
    /// search ends, since what the closure says of that point and the last one is true without the link: a way that goes
    /// over the link would lead back to a point no later than the first.
    fn leads(&self, asked: AskedOrder, reached: &mut ReachedPoints) -> Result<bool, Memory>
        requires ready { IsReady (basis_of self.now) }
        requires asked { IsAsked (basis_of self.now) asked }
        requires apart { asked.order.from ≢ asked.order.to }
        requires room { reached.old.room ≡ points self.now.net.now }
        ensures decides { IfOk result (Decides (basis_of self.now) asked) }
        ensures room { OnOk result (reached.new.room ≡ points self.now.net.now) }
    {
        reached.start(asked.order.from)?;
        let mut turn = 0;
        while turn < reached.len() {
            if self.spread(asked, reached, turn)? {
                return Ok(true);
            }
            turn += 1;
        }
        Ok(false)
    }

    /// Goes on over the orders that leave the point of this turn. True comes if one of them is enough.
    fn spread(
        &self,
        asked: AskedOrder,
        reached: &mut ReachedPoints,
        turn: usize,
    ) -> Result<bool, Memory>
        requires ready { IsReady (basis_of self.now) }
        requires asked { IsAsked (basis_of self.now) asked }
        requires search { IsSearch (basis_of self.now) asked reached.old }
        requires turn { turn < length reached.old.points }
        ensures { GoesOn (basis_of self.now) asked (λ order. order.atom.from ≡ slice_index reached.old.points turn) reached.old reached.new result }
    {
        let point = reached.point(turn);
        for order in self.graph.onward.of_point(point) {
            if self.comes_near(asked, order)
                && self.remains(asked, order)
                && self.take(asked, order, reached)?
            {
                return Ok(true);
            }
        }
        Ok(false)
    }

    /// Whether the closure puts the point that an order leads to at or before the last one. If it does not, the order leads
    /// nowhere, and this is known sooner than anything else of it.
    fn comes_near(&self, asked: AskedOrder, order: &Order) -> bool
        requires to { order.now.atom.to < self.now.table.now.points }
        requires last { asked.order.to < self.now.table.now.points }
        ensures { IsTrue result ↔ spec.ComesNear (basis_of self.now) asked order.now }
    {
        self.table.cell(order.atom.to, asked.order.to) != Cell::Free
    }

    /// Whether an order is of no link, or of another one that is kept.
    pub fn remains(&self, asked: AskedOrder, order: &Order) -> bool
        requires { spec.AreMarks (basis_of self.now) order.now }
        ensures { result ≡ spec.remains (basis_of self.now) asked order.now }
    {
        match order.link {
            Some(link) => link != asked.link && self.keep[link as usize],
            None => true,
        }
    }

    /// Whether an order is of no link, or of one that is kept.
    pub fn has(&self, order: &Order) -> bool
        requires { spec.AreMarks (basis_of self.now) order.now }
        ensures { result ≡ spec.is_kept (basis_of self.now) order.now }
    {
        match order.link {
            Some(link) => self.keep[link as usize],
            None => true,
        }
    }

    /// Goes over an order that remains. True comes if it is enough.
    fn take(
        &self,
        asked: AskedOrder,
        order: &Order,
        reached: &mut ReachedPoints,
    ) -> Result<bool, Memory>
        requires ready { IsReady (basis_of self.now) }
        requires asked { IsAsked (basis_of self.now) asked }
        requires search { IsSearch (basis_of self.now) asked reached.old }
        requires way { IsRemainingWay (basis_of self.now) asked order.now }
        requires led { IsLed (basis_of self.now) asked order.now.atom.from }
        ensures { GoesOn (basis_of self.now) asked (λ o. o ≡ order.now) reached.old reached.new result }
    {
        if reached.has(order.atom.to) {
            return Ok(false);
        }
        if !self.leads_out(asked, order) {
            reached.add(order.atom.to)?;
            return Ok(false);
        }
        Ok(self.is_enough(asked, order))
    }

    /// Whether an order leads to the last point, or to one that the closure doesn't put at or before the first.
    fn leads_out(&self, asked: AskedOrder, order: &Order) -> bool
        requires to { order.now.atom.to < self.now.table.now.points }
        requires first { asked.order.from < self.now.table.now.points }
        ensures { IsTrue result ↔ spec.LeadsOut (basis_of self.now) asked order.now }
    {
        order.atom.to == asked.order.to
            || self.table.cell(order.atom.to, asked.order.from) == Cell::Free
    }

    /// Whether the closure gives the order that is asked for, from where an order leads out.
    fn is_enough(&self, asked: AskedOrder, order: &Order) -> bool
        requires to { order.now.atom.to < self.now.table.now.points }
        requires last { asked.order.to < self.now.table.now.points }
        requires out { spec.LeadsOut (basis_of self.now) asked order.now }
        ensures { IsTrue result ↔ spec.IsEnough (basis_of self.now) asked order.now }
    {
        let strict = asked.order.strict && !order.atom.strict;
        self.table.cell(order.atom.to, asked.order.to).gives(strict)
    }
}
