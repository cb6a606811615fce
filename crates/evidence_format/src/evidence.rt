//! What a file is evidence of.
use net_core::{List, Ranks, Rel, Walk};

/// Evidence of what follows from a document. It is well formed where a relation has one walk for each order of starts
/// and ends that it is, where the cites of a clash rise strictly and there are as many spares, and where there are at
/// most 4,294,967,295 intervals in a timeline, steps in a walk and cites.
#[derive(Drop)]
pub enum Evidence {
    /// A timeline that fits the document.
    Timeline {
        /// The ranks of its intervals, in their order.
        ranks: Ranks,
    },
    /// A proof that a relation between two intervals holds in every timeline that fits.
    Entails {
        a: u32,
        rel: Rel,
        b: u32,
        /// A walk for each order that the relation is, in the order of the table of relations.
        walks: List<Walk>,
    },
    /// A counterexample: a timeline that fits, and in which a relation between two intervals is false.
    Counter {
        a: u32,
        rel: Rel,
        b: u32,
        /// The ranks of its intervals, in their order.
        ranks: Ranks,
    },
    /// A proof that links cannot all be true, and that without any one of them the others can.
    Clash {
        /// The numbers of the links.
        cites: List<u32>,
        /// A closed walk over these links.
        walk: Walk,
        /// For each of these links, in their order, the ranks of a timeline in which the others hold.
        spares: List<Ranks>,
    },
}
