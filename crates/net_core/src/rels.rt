//! The relations of TLINK.
ghost use Rattle.named.specs.Texts.{AreApart, NoneHas, named_of};
ghost use Rattle.net_core.specs.Atoms.{atom_count};
ghost use Rattle.net_core.specs.BaseRelations.{OneBaseRelationHolds};
ghost use Rattle.net_core.specs.Rels as names;
ghost use Rattle.std.proofs.Common.{rules};
ghost use Rattle.std.specs.Prelude.{IfSome, IsNone, ◌≡◌, ◌≤◌, ◌↔◌};

use crate::orders_of;
use named::{Named, named_by};

/// How an interval of time `a` is related to an interval `b`: the values of `relType` of TLINK in TimeML 1.2.1, and
/// after them OVERLAPS and its inverse, by which this project extends them. What they say of starts and ends is the
/// reading of this project.
#[derive(Clone, Copy, PartialEq, Eq)]
pub enum Rel {
    /// `a` ends before `b` begins.
    Before,
    /// `b` ends before `a` begins.
    After,
    /// `a` begins before `b` and ends after it.
    Includes,
    /// `b` begins before `a` and ends after it.
    IsIncluded,
    /// `a` begins no earlier than `b`, and ends no later.
    During,
    /// `b` begins no earlier than `a`, and ends no later.
    DuringInv,
    /// Both begin together and end together.
    Simultaneous,
    /// Both are one, so they begin together and end together.
    Identity,
    /// `a` ends where `b` begins.
    Ibefore,
    /// `b` ends where `a` begins.
    Iafter,
    /// Both begin together, and `a` ends first.
    Begins,
    /// Both begin together, and `b` ends first.
    BegunBy,
    /// Both end together, and `b` begins first.
    Ends,
    /// Both end together, and `a` begins first.
    EndedBy,
    /// `a` begins before `b`, and ends after `b` begins and before it ends.
    Overlaps,
    /// `b` begins before `a`, and ends after `a` begins and before it ends.
    OverlappedBy,
}

impl Rel {
    /// The text of the value.
    pub fn text(self) -> &'static [u8]
        ensures { result.now ≡ names.rel_text self }
    {
        match self {
            Rel::Before => b"BEFORE",
            Rel::After => b"AFTER",
            Rel::Includes => b"INCLUDES",
            Rel::IsIncluded => b"IS_INCLUDED",
            Rel::During => b"DURING",
            Rel::DuringInv => b"DURING_INV",
            Rel::Simultaneous => b"SIMULTANEOUS",
            Rel::Identity => b"IDENTITY",
            Rel::Ibefore => b"IBEFORE",
            Rel::Iafter => b"IAFTER",
            Rel::Begins => b"BEGINS",
            Rel::BegunBy => b"BEGUN_BY",
            Rel::Ends => b"ENDS",
            Rel::EndedBy => b"ENDED_BY",
            Rel::Overlaps => b"OVERLAPS",
            Rel::OverlappedBy => b"OVERLAPPED_BY",
        }
    }

    /// How many orders of starts and ends the relation is.
    #[tactic(auto, using(crate::proofs::AtomLaws::few_orders))]
    pub fn atom_count(self) -> u32
        ensures count { result ≡ atom_count self }
        ensures few { result ≤ 4 }
    {
        orders_of(self).len() as u32
    }
}

impl Named for Rel {
    ghost text_of = { names.rel_text };

    ghost all_of = { names.all_rels };

    ghost apart = { Prim.search rules };

    fn all() -> &'static [Rel] {
        &[
            Rel::Before,
            Rel::After,
            Rel::Includes,
            Rel::IsIncluded,
            Rel::During,
            Rel::DuringInv,
            Rel::Simultaneous,
            Rel::Identity,
            Rel::Ibefore,
            Rel::Iafter,
            Rel::Begins,
            Rel::BegunBy,
            Rel::Ends,
            Rel::EndedBy,
            Rel::Overlaps,
            Rel::OverlappedBy,
        ]
    }

    fn text(self) -> &'static [u8] {
        Rel::text(self)
    }
}

/// The relation that has this text, byte for byte. None comes exactly where no relation has it.
pub fn rel_of(text: &[u8]) -> Option<Rel>
    ensures exact { result ≡ named_of names.rel_text names.all_rels text.now }
    ensures some { IfSome result (λ rel. names.rel_text rel ≡ text.now) }
    ensures none { IsNone result ↔ NoneHas names.rel_text text.now }
{
    named_by(text)
}

/// A law: each relation is found by its own text, so `rel_of(rel.text())` is `Some(rel)`.
pub fn rels_are_apart()
    ensures { AreApart names.rel_text names.all_rels }
{}

/// A law: of any two intervals, each of which starts before it ends, exactly one of Allen's thirteen base relations
/// holds.
pub fn one_base_relation_holds()
    ensures { OneBaseRelationHolds }
{}
