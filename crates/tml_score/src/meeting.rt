//! Whether ways lead from one point to another that is at one place with it, by a search from both.
ghost use Rattle.net_core.specs.Nets.{points};
ghost use Rattle.order_closure.specs.Tables.{cell_at};
ghost use Rattle.std.specs.Prelude.{IfOk, IsTrue, OnOk, false, length, slice_index, ◌<◌, ◌≡◌, ◌≢◌, ◌↔◌};
ghost use Rattle.tml_score.specs.Ends.{opposite};
ghost use Rattle.tml_score.specs.Meeting.{ShareNoPoint, GoesFrom, IsOn, IsSide, IsWith, VisitsPoint};
ghost use Rattle.tml_score.specs.Search.{Decides, IsAsked, IsReady, basis_of};
ghost use Rattle.tml_score.specs.Trees.{IsKnown};

use crate::ends::End;
use crate::reached::ReachedPoints;
use crate::search::{AskedOrder, KeptLinks};
use crate::trees::Known;
use net_core::Memory;
use order_closure::Cell;

impl KeptLinks<'_> {
    /// Whether an order of two points that are at one place in every timeline follows from the other links that are kept.
    /// The search goes on from the first point, and back from the last one, through points at their place. It ends when
    /// the sides meet, when a side comes to a point that the trees join with the other one, or when a side is at its end.
    ///
    /// # Errors
    ///
    /// Out of memory.
    pub fn meets(
        &self,
        asked: AskedOrder,
        known: &Known<'_>,
        onward: &mut ReachedPoints,
        back: &mut ReachedPoints,
    ) -> Result<bool, Memory>
        requires ready { IsReady (basis_of self.now) }
        requires asked { IsAsked (basis_of self.now) asked }
        requires known { IsKnown (basis_of self.now) asked known.now }
        requires apart { asked.order.from ≢ asked.order.to }
        requires weak { asked.order.strict ≡ false }
        requires one_place { cell_at self.now.table.now asked.order.to asked.order.from ≢ Cell.Free }
        requires onward { onward.old.room ≡ points self.now.net.now }
        requires back { back.old.room ≡ points self.now.net.now }
        ensures decides { IfOk result (Decides (basis_of self.now) asked) }
        ensures onward { OnOk result (onward.new.room ≡ points self.now.net.now) }
        ensures back { OnOk result (back.new.room ≡ points self.now.net.now) }
    {
        if known.comes_before(self, asked, asked.order.from) {
            return Ok(true);
        }
        onward.start(asked.order.from)?;
        back.start(asked.order.to)?;
        let mut turn = 0;
        while turn < onward.len().min(back.len()) {
            if self.spread_side(asked, known, End::From, onward, back, turn)? {
                return Ok(true);
            }
            if self.spread_side(asked, known, End::To, back, onward, turn)? {
                return Ok(true);
            }
            turn += 1;
        }
        Ok(false)
    }

    /// Goes on over the orders that have the point of this turn at the near end, to the points at the other one. True comes
    /// if one of these is on the other side, or the trees join it with that side.
    fn spread_side(
        &self,
        asked: AskedOrder,
        known: &Known<'_>,
        near: End,
        own: &mut ReachedPoints,
        other: &ReachedPoints,
        turn: usize,
    ) -> Result<bool, Memory>
        requires ready { IsReady (basis_of self.now) }
        requires asked { IsAsked (basis_of self.now) asked }
        requires known { IsKnown (basis_of self.now) asked known.now }
        requires own { IsSide (basis_of self.now) (IsOn near (basis_of self.now) asked) own.old }
        requires other { IsSide (basis_of self.now) (IsOn (opposite near) (basis_of self.now) asked) other.now }
        requires apart { ShareNoPoint own.old other.now }
        requires turn { turn < length own.old.points }
        ensures { GoesFrom (basis_of self.now) asked near (slice_index own.old.points turn) other.now own.old own.new result }
    {
        let point = own.point(turn);
        for order in self.graph.of_point(near, point) {
            if self.remains(asked, order) {
                let far = near.across(order);
                if known.joins(self, asked, near, far) {
                    return Ok(true);
                }
                if self.visit(asked, far, own, other)? {
                    return Ok(true);
                }
            }
        }
        Ok(false)
    }

    /// Comes to a point. True comes if it is on the other side.
    fn visit(
        &self,
        asked: AskedOrder,
        point: u32,
        own: &mut ReachedPoints,
        other: &ReachedPoints,
    ) -> Result<bool, Memory>
        requires first { asked.order.from < self.now.table.now.points }
        requires point { point < self.now.table.now.points }
        requires own { own.old.room ≡ self.now.table.now.points }
        requires other { other.now.room ≡ self.now.table.now.points }
        ensures { VisitsPoint (basis_of self.now) asked point other.now own.old own.new result }
    {
        if other.has(point) {
            return Ok(true);
        }
        if !own.has(point) && self.is_with(asked, point) {
            own.add(point)?;
        }
        Ok(false)
    }

    /// Whether the closure puts a point at one place with the first of an order.
    fn is_with(&self, asked: AskedOrder, point: u32) -> bool
        requires first { asked.order.from < self.now.table.now.points }
        requires point { point < self.now.table.now.points }
        ensures { IsTrue result ↔ IsWith (basis_of self.now) asked point }
    {
        let first = asked.order.from;
        self.table.cell(point, first) != Cell::Free && self.table.cell(first, point) != Cell::Free
    }
}
