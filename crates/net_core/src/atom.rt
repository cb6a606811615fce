//! Orders of two points, and the orders that a relation is.
ghost use Rattle.net_core.specs.Atoms as spec;
ghost use Rattle.net_core.specs.Atoms.{AtomsSayTheRelation};
ghost use Rattle.net_core.specs.Relations.{Holds};
ghost use Rattle.std.specs.List.{slice_get};
ghost use Rattle.std.specs.Prelude.{IsTrue, ◌≡◌, ◌<◌, ◌≤◌, ◌↔◌, length};

use crate::{Ends, Rel};

/// Point `from` is before point `to`; where it is not strict, they may also be at one place.
#[derive(Clone, Copy, PartialEq, Eq)]
pub struct Atom {
    pub from: u32,
    pub to: u32,
    pub strict: bool,
}

/// A point of an interval.
#[derive(Clone, Copy, Debug, PartialEq, Eq)]
pub enum End {
    Start,
    Finish,
}

impl End {
    fn of(self, ends: Ends) -> u32
        ensures { result ≡ spec.point_in ends self }
    {
        match self {
            End::Start => ends.start,
            End::Finish => ends.finish,
        }
    }
}

/// An order of a point of an interval `a` and one of an interval `b`.
#[derive(Clone, Copy, Debug, PartialEq, Eq)]
pub enum PairOrder {
    /// This point of `a` is before that one of `b`.
    ABefore(End, End),
    /// This point of `a` is before that one of `b`, or both are at one place.
    ANoLater(End, End),
    /// This point of `b` is before that one of `a`.
    BBefore(End, End),
    /// This point of `b` is before that one of `a`, or both are at one place.
    BNoLater(End, End),
}

impl PairOrder {
    /// The order by the points of two intervals.
    pub fn between(self, a: Ends, b: Ends) -> Atom
        ensures { result ≡ spec.atom_between a b self }
    {
        match self {
            PairOrder::ABefore(p, q) => before(p.of(a), q.of(b)),
            PairOrder::ANoLater(p, q) => no_later(p.of(a), q.of(b)),
            PairOrder::BBefore(p, q) => before(p.of(b), q.of(a)),
            PairOrder::BNoLater(p, q) => no_later(p.of(b), q.of(a)),
        }
    }

    /// Whether the order is true of the starts and the ends of two intervals.
    pub fn is_true(self, a: Ends, b: Ends) -> bool
        ensures { IsTrue result ↔ spec.IsTrueOf a b self }
    {
        let Atom { from, to, strict } = self.between(a, b);
        if strict { from < to } else { from <= to }
    }
}

/// The orders that a relation between two intervals is, one to four: the table of relations.
pub fn orders_of(rel: Rel) -> &'static [PairOrder]
    ensures orders { result.now ≡ spec.orders_of rel }
{
    use End::{Finish, Start};
    use PairOrder::{ABefore, ANoLater, BBefore, BNoLater};
    match rel {
        Rel::Before => &[ABefore(Finish, Start)],
        Rel::After => &[BBefore(Finish, Start)],
        Rel::Includes => &[ABefore(Start, Start), BBefore(Finish, Finish)],
        Rel::IsIncluded => &[BBefore(Start, Start), ABefore(Finish, Finish)],
        Rel::During => &[BNoLater(Start, Start), ANoLater(Finish, Finish)],
        Rel::DuringInv => &[ANoLater(Start, Start), BNoLater(Finish, Finish)],
        Rel::Simultaneous | Rel::Identity => &[
            ANoLater(Start, Start),
            BNoLater(Start, Start),
            ANoLater(Finish, Finish),
            BNoLater(Finish, Finish),
        ],
        Rel::Ibefore => &[ANoLater(Finish, Start), BNoLater(Start, Finish)],
        Rel::Iafter => &[BNoLater(Finish, Start), ANoLater(Start, Finish)],
        Rel::Begins => &[
            ANoLater(Start, Start),
            BNoLater(Start, Start),
            ABefore(Finish, Finish),
        ],
        Rel::BegunBy => &[
            ANoLater(Start, Start),
            BNoLater(Start, Start),
            BBefore(Finish, Finish),
        ],
        Rel::Ends => &[
            ANoLater(Finish, Finish),
            BNoLater(Finish, Finish),
            BBefore(Start, Start),
        ],
        Rel::EndedBy => &[
            ANoLater(Finish, Finish),
            BNoLater(Finish, Finish),
            ABefore(Start, Start),
        ],
        Rel::Overlaps => &[
            ABefore(Start, Start),
            BBefore(Start, Finish),
            ABefore(Finish, Finish),
        ],
        Rel::OverlappedBy => &[
            BBefore(Start, Start),
            ABefore(Start, Finish),
            BBefore(Finish, Finish),
        ],
    }
}

/// Whether the relation holds of two intervals, by their starts and ends.
#[tactic(auto, using(crate::proofs::AtomLaws::orders_say_the_relation))]
pub fn holds(rel: Rel, a: Ends, b: Ends) -> bool
    ensures { IsTrue result ↔ Holds a rel b }
{
    orders_of(rel).iter().all(|order| order.is_true(a, b))
}

/// The orders of points that a relation between two intervals is: one to four.
#[derive(Clone, Copy)]
pub struct Atoms {
    rel: Rel,
    a: Ends,
    b: Ends,
}

impl Atoms {
    /// How many there are.
    #[tactic(auto, using(crate::proofs::AtomLaws::atoms_counted))]
    pub fn count(&self) -> u32
        ensures count { result ≡ length (spec.atoms_in self.now) }
        ensures few { result ≤ 4 }
    {
        self.rel.atom_count()
    }

    /// The order of this number, counted from 0 in the order of the table of relations. None comes exactly where `k` is
    /// not below `count()`.
    pub fn atom(&self, k: u32) -> Option<Atom>
        ensures { result ≡ slice_get (spec.atoms_in self.now) k }
    {
        let order = orders_of(self.rel).get(k as usize)?;
        Some(order.between(self.a, self.b))
    }
}

/// The orders that a relation between the intervals `a` and `b` is.
pub fn atoms_of(rel: Rel, a: u32, b: u32) -> Atoms
    requires a { a < 2147483647 }
    requires b { b < 2147483647 }
    ensures { spec.atoms_in result ≡ spec.atoms_of a rel b }
{
    Atoms {
        rel,
        a: points_of(a),
        b: points_of(b),
    }
}

/// The points of an interval: its start and its end.
pub(crate) fn points_of(interval: u32) -> Ends
    requires { interval < 2147483647 }
    ensures { result ≡ spec.points_of interval }
{
    Ends {
        start: 2 * interval,
        finish: 2 * interval + 1,
    }
}

pub(crate) fn before(from: u32, to: u32) -> Atom
    ensures { result ≡ spec.before from to }
{
    Atom {
        from,
        to,
        strict: true,
    }
}

fn no_later(from: u32, to: u32) -> Atom
    ensures { result ≡ spec.no_later from to }
{
    Atom {
        from,
        to,
        strict: false,
    }
}

/// A law: a relation holds of two intervals of a timeline exactly where all its orders of points hold.
pub fn atoms_say_the_relation()
    ensures { AtomsSayTheRelation }
{}
