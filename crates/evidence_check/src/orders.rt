//! The orders that the links of a net are, without repeats, so that no timeline is checked against one of them twice.
ghost use Rattle.evidence_check.specs.Orders.{AreAtMost, AreOrdersOf, AreOrdersWithin, KeepsOrders};
ghost use Rattle.evidence_check.specs.declared.pairs.TheConstants.{MAX_PAIRS as most_pairs};
ghost use Rattle.net_core.specs.Atoms.{IsInRange, Satisfies, atoms_in};
ghost use Rattle.net_core.specs.Fits.{KeepsLink};
ghost use Rattle.net_core.specs.Limits.{max_intervals, max_points};
ghost use Rattle.net_core.specs.Nets.{IsNet, points};
ghost use Rattle.net_core.specs.Ranks.{timeline_of};
ghost use Rattle.net_core.specs.Relations.{Equals, Holds, Timeline, ends_of};
ghost use Rattle.net_core.specs.declared.net.Ends.{Ends as EndsOf};
ghost use Rattle.std.specs.List.{All};
ghost use Rattle.std.specs.Prelude.{IsTrue, [], length, ℕ, ◌<◌, ◌+◌, ◌-◌, ◌*◌, ◌≡◌, ◌↔◌};

use crate::pairs::{Order, Pair, Pairs};
use net_core::{Atom, Atoms, Net, Rel, atoms_of};

/// Orders that are asked of a timeline, each kind in a list of its own: so a list is read without a branch. They take
/// no memory.
#[derive(Drop)]
pub struct Orders {
    /// Points of which the first is before the second.
    pub befores: Pairs,
    /// Points of which the first is before the second, or both are at one place.
    pub no_laters: Pairs,
    /// Intervals that start together and end together.
    pub equals: Pairs,
}

impl Orders {
    /// No orders.
    pub fn new() -> Orders
        ensures befores { result.befores ≡ [] }
        ensures no_laters { result.no_laters ≡ [] }
        ensures equals { result.equals ≡ [] }
    {
        Orders {
            befores: Pairs::new(),
            no_laters: Pairs::new(),
            equals: Pairs::new(),
        }
    }

    /// Appends the orders that the links of a net are, where there are no others.
    pub fn push_links(&mut self, net: &Net)
        requires befores { self.old.befores ≡ [] }
        requires no_laters { self.old.no_laters ≡ [] }
        requires equals { self.old.equals ≡ [] }
        ensures { AreOrdersOf net.now self.new }
    {
        for k in 0..net.links() {
            self.push_link(net, k);
        }
        self.drop_repeats();
    }

    /// Appends the orders that a link is.
    fn push_link(&mut self, net: &Net, k: u32)
        requires net { IsNet net.now }
        requires k { k < length net.now.links }
        requires within { AreOrdersWithin (points net.now) self.old }
        requires few { AreAtMost (4 * k) self.old }
        ensures keeps { (t : Timeline) → KeepsOrders t self.new ↔ (KeepsOrders t self.old × KeepsLink net.now t k) }
        ensures within { AreOrdersWithin (points net.now) self.new }
        ensures few { AreAtMost (4 * (k + 1)) self.new }
    {
        let link = net.link(k);
        if is_equality(link.rel) {
            self.push_equal(link.a, link.b);
        } else {
            self.push_atoms(atoms_of(link.rel, link.a, link.b));
        }
    }

    /// Appends that two intervals start together and end together.
    fn push_equal(&mut self, a: u32, b: u32)
        requires a { a < max_intervals }
        requires b { b < max_intervals }
        requires few { AreAtMost (most_pairs - 4) self.old }
        ensures keeps { (t : Timeline) → KeepsOrders t self.new ↔ (KeepsOrders t self.old × Equals (ends_of t a) (ends_of t b)) }
        ensures within { (n : ℕ) → AreOrdersWithin n self.old → 2 * a + 1 < n → 2 * b + 1 < n → AreOrdersWithin n self.new }
        ensures few { (n : ℕ) → AreAtMost n self.old → AreAtMost (n + 4) self.new }
    {
        self.equals.push(Pair {
            first: a.min(b) as u16,
            second: a.max(b) as u16,
        });
    }

    /// Appends these orders.
    fn push_atoms(&mut self, atoms: Atoms)
        requires points { All (IsInRange max_points) (atoms_in atoms) }
        requires few { AreAtMost (most_pairs - 4) self.old }
        ensures keeps { (t : Timeline) → KeepsOrders t self.new ↔ (KeepsOrders t self.old × All (Satisfies t) (atoms_in atoms)) }
        ensures within { (n : ℕ) → AreOrdersWithin n self.old → All (IsInRange n) (atoms_in atoms) → AreOrdersWithin n self.new }
        ensures few { (n : ℕ) → AreAtMost n self.old → AreAtMost (n + 4) self.new }
    {
        for k in 0..atoms.count() {
            let Some(atom) = atoms.atom(k) else {
                unreachable!()
            };
            self.push_atom(atom);
        }
    }

    /// Appends an order.
    fn push_atom(&mut self, atom: Atom)
        requires points { IsInRange max_points atom }
        requires few { AreAtMost (most_pairs - 1) self.old }
        ensures keeps { (t : Timeline) → KeepsOrders t self.new ↔ (KeepsOrders t self.old × Satisfies t atom) }
        ensures within { (n : ℕ) → AreOrdersWithin n self.old → IsInRange n atom → AreOrdersWithin n self.new }
        ensures few { (n : ℕ) → AreAtMost n self.old → AreAtMost (n + 1) self.new }
    {
        let pair = Pair {
            first: atom.from as u16,
            second: atom.to as u16,
        };
        if atom.strict {
            self.befores.push(pair);
        } else {
            self.no_laters.push(pair);
        }
    }

    /// Leaves each order once.
    fn drop_repeats(&mut self)
        ensures keeps { (t : Timeline) → KeepsOrders t self.new ↔ KeepsOrders t self.old }
        ensures within { (n : ℕ) → AreOrdersWithin n self.old → AreOrdersWithin n self.new }
    {
        self.befores.drop_repeats();
        self.no_laters.drop_repeats();
        self.equals.drop_repeats();
    }

    /// Whether these ranks keep all orders.
    pub fn are_kept(&self, ranks: &[u32]) -> bool
        requires { AreOrdersWithin (length ranks.now) self.now }
        ensures { IsTrue result ↔ KeepsOrders (timeline_of ranks.now) self.now }
    {
        self.befores.are_kept(Order::Before, ranks)
            && self.no_laters.are_kept(Order::NoLater, ranks)
            && self.equals.are_kept(Order::Equal, ranks)
    }
}

/// Whether a relation says that two intervals start together and end together, and nothing else.
fn is_equality(rel: Rel) -> bool
    ensures { IsTrue result → (a b : EndsOf) → Equals a b ↔ Holds a rel b }
{
    matches!(rel, Rel::Simultaneous | Rel::Identity)
}
