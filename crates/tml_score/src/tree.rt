//! Orders that lead from the root of each place to its points, or from these back to it.
ghost use Rattle.net_orders.specs.Orders as orders;
ghost use Rattle.net_core.specs.Nets.{points};
ghost use Rattle.std.specs.Bool.{OnTrue};
ghost use Rattle.std.specs.List.{Contains};
ghost use Rattle.std.specs.Prelude.{IfOk, IfSome, OnOk, [], false, length, slice_index_or, ℕ, ◌++◌, ◌<◌, ◌∷◌, ◌≡◌, ◌≤◌};
ghost use Rattle.tml_score.specs.Ends.{far_end_of};
ghost use Rattle.tml_score.specs.Search.{IsReady, basis_of};
ghost use Rattle.tml_score.specs.Ties.{AreTies};
ghost use Rattle.tml_score.specs.Tree.{IsBefore, IsCovered, IsCut, IsTree, LeadsOn, order_at, with_link};

use crate::ends::End;
use crate::search::KeptLinks;
use crate::ties::Ties;
use net_core::Memory;
use net_orders::Order;
use point_index::PointOf;
use std::alloc::Global;

/// Orders that lead from the root of each place to its points, or from these back to it, in the order in which they were
/// taken: each comes from a root, or from a point that an order before it leads to. A point was led to if the order of the
/// turn that stands for it has this point, and so nothing is cleared if the last orders are taken away.
#[derive(Drop)]
pub struct Tree {
    pub near: End,
    pub orders: Vec<Order>,
    pub turns: Vec<usize>,
    pub in_use: Vec<bool>,
    pub whole: bool,
}

/// The links whose orders may be taken: those before `next`, which were taken already, and those from `from` on.
#[derive(Clone, Copy)]
struct Open {
    next: u32,
    from: u32,
}

impl Open {
    /// Whether an order may be taken.
    fn has(self, order: &Order) -> bool {
        match order.link {
            Some(link) => link < self.next || self.from <= link,
            None => true,
        }
    }
}

impl Tree {
    /// No orders yet, of this number of points and links.
    ///
    /// # Errors
    ///
    /// Out of memory.
    pub fn new(alloc: Global, near: End, points: u32, links: u32) -> Result<Tree, Memory>
        ensures near { IfOk result (λ tree. tree.near ≡ near) }
        ensures orders { IfOk result (λ tree. tree.orders.items ≡ []) }
        ensures turns { IfOk result (λ tree. length tree.turns.items ≡ points) }
        ensures in_use { IfOk result (λ tree. length tree.in_use.items ≡ links) }
    {
        let turns = vec![in alloc; 0usize; points as usize]?;
        let in_use = vec![in alloc; false; links as usize]?;
        Ok(Tree {
            near,
            orders: Vec::new(alloc),
            turns,
            in_use,
            whole: false,
        })
    }

    /// Whether a point is a root, or one of this number of orders of the tree leads to it.
    pub fn covers(&self, ties: &Ties, point: u32, turns: usize) -> bool
        requires turns { point < length self.now.turns.items }
        requires roots { point < length ties.now.roots.items }
        ensures { OnTrue result (IsCovered ties.now.roots.items self.now turns point) }
    {
        if ties.root(point) == point {
            return true;
        }
        let turn = self.turns[point as usize];
        if turns <= turn {
            return false;
        }
        match self.orders.get(turn) {
            Some(order) => self.near.across(order) == point,
            None => false,
        }
    }

    /// Grows again, if orders were taken away, over links that are kept: those that were taken first, which stay
    /// kept, and then the others from the last one down. So the links in use are taken late, and few of them are left out.
    ///
    /// # Errors
    ///
    /// Out of memory.
    pub fn refresh(&mut self, kept: &KeptLinks<'_>, ties: &Ties, next: u32) -> Result<(), Memory>
        requires ready { IsReady (basis_of kept.now) }
        requires ties { AreTies (basis_of kept.now) ties.now }
        requires tree { IsTree (basis_of kept.now) ties.now.roots.items self.old.near self.old }
        ensures { OnOk result (IsTree (basis_of kept.now) ties.now.roots.items self.old.near self.new) }
    {
        if self.whole {
            return Ok(());
        }
        self.clear();
        self.grow(kept, ties, next)?;
        self.whole = true;
        Ok(())
    }

    /// Takes all orders away.
    fn clear(&mut self)
        ensures near { self.new.near ≡ self.old.near }
        ensures orders { self.new.orders.items ≡ [] }
        ensures turns { self.new.turns ≡ self.old.turns }
        ensures in_use { length self.new.in_use.items ≡ length self.old.in_use.items }
    {
        self.orders.clear();
        self.in_use.fill(false);
    }

    /// Takes all orders that lead on, the late links first.
    fn grow(&mut self, kept: &KeptLinks<'_>, ties: &Ties, next: u32) -> Result<(), Memory>
        requires ready { IsReady (basis_of kept.now) }
        requires ties { AreTies (basis_of kept.now) ties.now }
        requires tree { IsTree (basis_of kept.now) ties.now.roots.items self.old.near self.old }
        ensures { OnOk result (IsTree (basis_of kept.now) ties.now.roots.items self.old.near self.new) }
    {
        let links = kept.net.links();
        self.leave_roots(kept, ties, Open { next, from: links })?;
        let mut turn = self.go_on(kept, ties, Open { next, from: links }, 0)?;
        for order in &ties.orders {
            let Some(from) = order.link else {
                return Ok(());
            };
            if from < next {
                return Ok(());
            }
            if self.reach(kept, ties, order)? {
                turn = self.go_on(kept, ties, Open { next, from }, turn)?;
            }
        }
        Ok(())
    }

    /// Takes the orders that lead on from the roots.
    fn leave_roots(&mut self, kept: &KeptLinks<'_>, ties: &Ties, open: Open) -> Result<(), Memory>
        requires ready { IsReady (basis_of kept.now) }
        requires ties { AreTies (basis_of kept.now) ties.now }
        requires tree { IsTree (basis_of kept.now) ties.now.roots.items self.old.near self.old }
        ensures { OnOk result (IsTree (basis_of kept.now) ties.now.roots.items self.old.near self.new) }
    {
        for point in 0..kept.table.points() {
            if ties.roots[point as usize] == point {
                self.spread(kept, ties, open, point)?;
            }
        }
        Ok(())
    }

    /// Takes the orders that lead on from what the orders from a turn on lead to, and returns the turn at the end.
    fn go_on(
        &mut self,
        kept: &KeptLinks<'_>,
        ties: &Ties,
        open: Open,
        first: usize,
    ) -> Result<usize, Memory>
        requires ready { IsReady (basis_of kept.now) }
        requires ties { AreTies (basis_of kept.now) ties.now }
        requires tree { IsTree (basis_of kept.now) ties.now.roots.items self.old.near self.old }
        ensures { OnOk result (IsTree (basis_of kept.now) ties.now.roots.items self.old.near self.new) }
    {
        let end = self.turns.len();
        for turn in first..end {
            let Some(&order) = self.orders.get(turn) else {
                return Ok(turn);
            };
            let point = self.near.across(&order);
            self.spread(kept, ties, open, point)?;
        }
        Ok(end)
    }

    /// Takes the orders that lead on from a point.
    fn spread(
        &mut self,
        kept: &KeptLinks<'_>,
        ties: &Ties,
        open: Open,
        point: u32,
    ) -> Result<(), Memory>
        requires ready { IsReady (basis_of kept.now) }
        requires ties { AreTies (basis_of kept.now) ties.now }
        requires point { point < points kept.now.net.now }
        requires tree { IsTree (basis_of kept.now) ties.now.roots.items self.old.near self.old }
        ensures { OnOk result (IsTree (basis_of kept.now) ties.now.roots.items self.old.near self.new) }
    {
        for order in ties.of_point(kept, self.near, point) {
            if open.has(order) {
                self.reach(kept, ties, order)?;
            }
        }
        Ok(())
    }

    /// Takes an order, if it leads on.
    fn reach(&mut self, kept: &KeptLinks<'_>, ties: &Ties, order: &Order) -> Result<bool, Memory>
        requires ready { IsReady (basis_of kept.now) }
        requires ties { AreTies (basis_of kept.now) ties.now }
        requires order { Contains kept.now.graph.now.onward.items order.now }
        requires tree { IsTree (basis_of kept.now) ties.now.roots.items self.old.near self.old }
        ensures { OnOk result (IsTree (basis_of kept.now) ties.now.roots.items self.old.near self.new) }
    {
        if !self.leads_on(kept, ties, order) {
            return Ok(false);
        }
        self.take(order)?;
        Ok(true)
    }

    /// Whether an order that is kept leads from a point that is covered to one of its place that isn't.
    fn leads_on(&self, kept: &KeptLinks<'_>, ties: &Ties, order: &Order) -> bool
        requires ready { IsReady (basis_of kept.now) }
        requires ties { AreTies (basis_of kept.now) ties.now }
        requires order { Contains kept.now.graph.now.onward.items order.now }
        requires tree { IsTree (basis_of kept.now) ties.now.roots.items self.now.near self.now }
        ensures { OnTrue result (LeadsOn (basis_of kept.now) ties.now.roots.items self.now order.now) }
    {
        let (near, far) = (self.near.point(order), self.near.across(order));
        if ties.root(near) != ties.root(far) || !kept.has(order) {
            return false;
        }
        let turns = self.orders.len();
        if self.covers(ties, far, turns) {
            return false;
        }
        self.covers(ties, near, turns)
    }

    /// Puts an order last.
    fn take(&mut self, order: &Order) -> Result<(), Memory>
        requires far { far_end_of self.old.near order.now < length self.old.turns.items }
        requires link { IfSome order.now.link (λ k. k < length self.old.in_use.items) }
        ensures near { self.new.near ≡ self.old.near }
        ensures turns { length self.new.turns.items ≡ length self.old.turns.items }
        ensures orders { OnOk result (self.new.orders.items ≡ self.old.orders.items ++ order.now ∷ []) }
        ensures in_use { OnOk result (self.new.in_use.items ≡ with_link self.old.in_use.items order.now.link) }
    {
        let turn = self.orders.len();
        self.orders.push(*order)?;
        self.turns[self.near.across(order) as usize] = turn;
        if let Some(link) = order.link {
            self.in_use[link as usize] = true;
        }
        Ok(())
    }

    /// How many orders come before the first one of a link.
    pub fn before(&self, link: u32) -> usize
        requires { link < length self.now.in_use.items }
        ensures within { result ≤ length self.now.orders.items }
        ensures before { IsBefore link self.now result }
    {
        if self.in_use[link as usize] {
            self.first_of(link)
        } else {
            self.orders.len()
        }
    }

    /// Takes the orders of a link away, with all after the first of them.
    pub fn cut(&mut self, link: u32)
        requires { link < length self.old.in_use.items }
        ensures { IsCut link self.old self.new }
    {
        let turn = self.before(link);
        self.whole = self.whole && turn == self.orders.len();
        self.orders.truncate(turn);
    }

    /// The turn of the first order of a link, or how many orders there are.
    fn first_of(&self, link: u32) -> usize
        ensures within { result ≤ length self.now.orders.items }
        ensures before { (i : ℕ) → i < result → orders.is_of link (order_at self.now.orders.items i) ≡ false }
    {
        for (turn, order) in self.orders.iter().enumerate() {
            if order.is_of(link) {
                return turn;
            }
        }
        self.orders.len()
    }
}
