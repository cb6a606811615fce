//! Sets of base relations.
ghost use Rattle.net_core.specs.declared.rels.Rel.{Rel as RelOf};
ghost use Rattle.std.specs.Prelude.{IfSome, false, ◌<◌, ◌≡◌};
ghost use Rattle.tml_possible.specs.Sets as spec;
ghost use Rattle.tml_possible.specs.Sets.{AreMore};

use net_core::Rel;

/// A set of base relations (Allen 1983): of any two intervals, exactly one of the thirteen holds.
#[derive(Clone, Copy)]
pub struct BaseSet {
    /// Bit k is that of base relation k, in the order of the table of relations.
    pub(crate) bits: u16,
}

impl BaseSet {
    /// How many sets there are.
    pub const COUNT: usize = 8192;

    /// The number of the set, below `COUNT`: bit k of it is that of base relation k.
    pub fn number(self) -> usize
        ensures small { result < 8192 }
        ensures number { result ≡ spec.number self }
    {
        usize::from(self.bits % 8192)
    }

    /// Whether the relation is in the set. DURING, DURING_INV and IDENTITY are no base relations, and are in none.
    pub fn has(&self, rel: Rel) -> bool
        ensures { result ≡ spec.has self.now rel }
    {
        match base_number(rel) {
            Some(k) => (self.bits >> k) & 1 == 1,
            None => false,
        }
    }

    /// The set without any.
    pub(crate) fn none() -> BaseSet
        ensures { (r : RelOf) → spec.has result r ≡ false }
    {
        BaseSet { bits: 0 }
    }

    /// The set with one more relation, where that is a base relation.
    pub(crate) fn with(self, rel: Rel) -> BaseSet
        ensures { AreMore self (λ r. r ≡ rel) result }
    {
        match base_number(rel) {
            Some(k) => BaseSet {
                bits: self.bits | 1 << k,
            },
            None => self,
        }
    }
}

/// The number of a base relation, in the order of the table of relations. None comes exactly where the relation is none.
fn base_number(rel: Rel) -> Option<u32>
    ensures number { result ≡ spec.base_number rel }
    ensures small { IfSome result (λ k. k < 13) }
{
    match rel {
        Rel::Before => Some(0),
        Rel::After => Some(1),
        Rel::Includes => Some(2),
        Rel::IsIncluded => Some(3),
        Rel::Simultaneous => Some(4),
        Rel::Ibefore => Some(5),
        Rel::Iafter => Some(6),
        Rel::Begins => Some(7),
        Rel::BegunBy => Some(8),
        Rel::Ends => Some(9),
        Rel::EndedBy => Some(10),
        Rel::Overlaps => Some(11),
        Rel::OverlappedBy => Some(12),
        Rel::During | Rel::DuringInv | Rel::Identity => None,
    }
}
