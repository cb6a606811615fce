//! Trees that show of most orders of points at one place that they follow.
ghost use Rattle.net_core.specs.Nets.{points};
ghost use Rattle.std.specs.Bool.{OnTrue};
ghost use Rattle.std.specs.Prelude.{IfOk, OnOk, length, ◌<◌};
ghost use Rattle.tml_score.specs.Ends.{opposite};
ghost use Rattle.tml_score.specs.Meeting.{IsLedTo, IsOn};
ghost use Rattle.tml_score.specs.Search.{IsAsked, IsLed, IsReady, basis_of};
ghost use Rattle.tml_score.specs.Trees.{AreCut, AreTrees, IsKnown, StayTrees};

use crate::ends::End;
use crate::search::{AskedOrder, KeptLinks};
use crate::ties::Ties;
use crate::tree::Tree;
use net_core::Memory;
use std::alloc::Global;

/// Orders that lead from the root of each place to its points, and others that lead back to it. They show that an order of two
/// points of a place follows, of a link that they don't use, and they end a search for one of a link that they use. `spent`
/// counts the points that such searches have reached, since the trees last grew, for orders that follow: if that is many
/// the trees grow again.
#[derive(Drop)]
pub struct Trees {
    pub ties: Ties,
    pub onward: Tree,
    pub back: Tree,
    spent: usize,
}

impl Trees {
    /// The trees of a net, which have not grown yet.
    ///
    /// # Errors
    ///
    /// Out of memory.
    pub fn new(alloc: Global, kept: &KeptLinks<'_>) -> Result<Trees, Memory>
        requires { IsReady (basis_of kept.now) }
        ensures { IfOk result (AreTrees (basis_of kept.now)) }
    {
        let ties = Ties::new(alloc, kept)?;
        let points = kept.table.points();
        let links = kept.net.links();
        let onward = Tree::new(alloc, End::From, points, links)?;
        let back = Tree::new(alloc, End::To, points, links)?;
        Ok(Trees {
            ties,
            onward,
            back,
            spent: 0,
        })
    }

    /// Has the trees grow again, before the next link is taken, if that is worth it.
    ///
    /// # Errors
    ///
    /// Out of memory.
    pub fn refresh(&mut self, kept: &KeptLinks<'_>, next: u32) -> Result<(), Memory>
        requires ready { IsReady (basis_of kept.now) }
        requires trees { AreTrees (basis_of kept.now) self.old }
        ensures { OnOk result (AreTrees (basis_of kept.now) self.new) }
    {
        if self.spent < self.ties.orders.len() / 2 {
            return Ok(());
        }
        self.spent = 0;
        self.onward.refresh(kept, &self.ties, next)?;
        self.back.refresh(kept, &self.ties, next)
    }

    /// What the trees show beside the link that an order is of.
    pub fn known(&self, kept: &KeptLinks<'_>, asked: AskedOrder) -> Known<'_>
        requires ready { IsReady (basis_of kept.now) }
        requires asked { IsAsked (basis_of kept.now) asked }
        requires trees { AreTrees (basis_of kept.now) self.now }
        ensures { IsKnown (basis_of kept.now) asked result }
    {
        let onward = self.onward.before(asked.link);
        let back = self.back.before(asked.link);
        Known {
            trees: self,
            onward,
            back,
            from: self.back.covers(&self.ties, asked.order.from, back),
            to: self.onward.covers(&self.ties, asked.order.to, onward),
        }
    }

    /// Counts points that a search has reached.
    pub fn spend(&mut self, reached: usize)
        ensures { StayTrees self.old self.new }
    {
        self.spent = self.spent.saturating_add(reached);
    }

    /// Takes the orders of a link away.
    pub fn cut(&mut self, link: u32)
        requires onward { link < length self.old.onward.in_use.items }
        requires back { link < length self.old.back.in_use.items }
        ensures { AreCut link self.old self.new }
    {
        self.onward.cut(link);
        self.back.cut(link);
    }
}

/// What the trees show beside the link of an order: how many orders of each come before those of the link, and whether these
/// lead back from the first point of the order to its root, and onward from the root to the last point.
#[derive(Clone, Copy)]
pub struct Known<'a> {
    pub trees: &'a Trees,
    pub onward: usize,
    pub back: usize,
    pub from: bool,
    pub to: bool,
}

impl Known<'_> {
    /// Whether they join a point with the other side: show that it is no later than the last one of the order where the search
    /// goes on, and no earlier than the first one where it goes back.
    pub fn joins(&self, kept: &KeptLinks<'_>, asked: AskedOrder, near: End, point: u32) -> bool
        requires ready { IsReady (basis_of kept.now) }
        requires asked { IsAsked (basis_of kept.now) asked }
        requires known { IsKnown (basis_of kept.now) asked self.now }
        requires point { point < points kept.now.net.now }
        ensures { OnTrue result (IsOn (opposite near) (basis_of kept.now) asked point) }
    {
        match near {
            End::From => self.comes_before(kept, asked, point),
            End::To => self.comes_after(kept, asked, point),
        }
    }

    /// Whether they show that a point is no earlier than the first one of the order.
    fn comes_after(&self, kept: &KeptLinks<'_>, asked: AskedOrder, point: u32) -> bool
        requires ready { IsReady (basis_of kept.now) }
        requires asked { IsAsked (basis_of kept.now) asked }
        requires known { IsKnown (basis_of kept.now) asked self.now }
        requires point { point < points kept.now.net.now }
        ensures { OnTrue result (IsLed (basis_of kept.now) asked point) }
    {
        let trees = self.trees;
        if !self.from || trees.ties.root(asked.order.from) != trees.ties.root(point) {
            return false;
        }
        trees.onward.covers(&trees.ties, point, self.onward)
    }

    /// Whether they show that a point is no later than the last one of the order.
    pub fn comes_before(&self, kept: &KeptLinks<'_>, asked: AskedOrder, point: u32) -> bool
        requires ready { IsReady (basis_of kept.now) }
        requires asked { IsAsked (basis_of kept.now) asked }
        requires known { IsKnown (basis_of kept.now) asked self.now }
        requires point { point < points kept.now.net.now }
        ensures { OnTrue result (IsLedTo (basis_of kept.now) asked point) }
    {
        let trees = self.trees;
        if !self.to || trees.ties.root(point) != trees.ties.root(asked.order.to) {
            return false;
        }
        trees.back.covers(&trees.ties, point, self.back)
    }
}
