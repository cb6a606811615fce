//! The references of a document.
ghost use Rattle.std.specs.Prelude.{◌≡◌, IfOk, IfErr};
ghost use Rattle.tml_refs.specs.Documents.{Resolved};
ghost use Rattle.tml_refs.specs.Rules as rules;
ghost use Rattle.tml_refs.specs.Rules.{HasReferenceFault};

use crate::document::Document;
use crate::resolver::Resolver;
use faults::{FaultKind, write_fault};
use std::alloc::Global;
use std::error::Error;
use std::fmt;
use tml_types::Typed;

/// The first tag that is at fault, by the place where it begins, and its first fault.
#[derive(Clone, Copy, Debug, PartialEq, Eq)]
pub enum RefFault {
    /// The identifier of the tag is that of a tag before it, of whatever kind.
    DuplicateId { place: u32 },
    /// A reference of the tag is not the identifier of a tag of the kind that it asks for, before it or after it.
    UnknownReference { place: u32 },
    /// The tag is the first MAKEINSTANCE or TIMEX3 past `net_core::MAX_INTERVALS` of them.
    TooManyIntervals { place: u32 },
    /// The tag is the first TLINK past `net_core::MAX_LINKS` of them.
    TooManyLinks { place: u32 },
    /// Out of memory.
    Memory,
}

impl RefFault {
    /// The kind of the fault and its place, or none where it is that of memory.
    pub fn kind_and_place(self) -> Option<(FaultKind, u32)>
        ensures { result ≡ rules.kind_and_place self }
    {
        match self {
            RefFault::DuplicateId { place } => Some((FaultKind::DuplicateId, place)),
            RefFault::UnknownReference { place } => Some((FaultKind::UnknownReference, place)),
            RefFault::TooManyIntervals { place } => Some((FaultKind::TooManyIntervals, place)),
            RefFault::TooManyLinks { place } => Some((FaultKind::TooManyLinks, place)),
            RefFault::Memory => None,
        }
    }
}

impl fmt::Display for RefFault {
    fn fmt<W: fmt::Write>(&self, f: &mut fmt::Formatter<W>) -> fmt::Result {
        write_fault(f, self.kind_and_place())
    }
}

impl Error for RefFault {}

/// Resolves the references of typed tags, which are taken one by one.
///
/// # Errors
///
/// The first tag in document order that has a fault, and of its faults the one with the least number, in the order
/// of `RefFault`. `Memory` may come at any place.
pub fn resolve<'s>(alloc: Global, typed: &Typed<'s>) -> Result<Document<'s>, RefFault>
    ensures ok { IfOk result (λ d. Resolved typed.now d) }
    ensures err { IfErr result (λ e. HasReferenceFault typed.now e) }
{
    let mut resolver = Resolver::new(alloc);
    for tag in typed.as_slice() {
        if resolver.take(tag).is_err() {
            return Err(RefFault::Memory);
        }
    }
    resolver.finish()
}
