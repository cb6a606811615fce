//! What the tags of a document make.
ghost use Rattle.std.specs.Prelude.{◌≡◌, [], map};
ghost use Rattle.tml_refs.specs.Documents.{counts_of};

use crate::document::{Counts, DocLink, Interval};
use net_core::List;
use std::alloc::Global;

/// What some tags make: how many there are of each kind, their intervals and their links, in their order.
#[derive(Drop)]
pub struct Contents<'s> {
    pub counts: Counts,
    pub intervals: List<Interval<'s>>,
    pub links: List<DocLink>,
}

impl<'s> Contents<'s> {
    /// What no tags make. It takes no memory.
    pub fn new(alloc: Global) -> Contents<'s>
        ensures counts { result.counts ≡ counts_of [] }
        ensures intervals { result.intervals ≡ [] }
        ensures links { result.links ≡ [] }
    {
        Contents {
            counts: Counts::NONE,
            intervals: List::new(alloc),
            links: List::new(alloc),
        }
    }
}
