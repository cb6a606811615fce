//! Why a source is not cut into units whole.
ghost use Rattle.std.specs.Prelude.{◌≡◌};
ghost use Rattle.tml_span.specs.Faults as faults;

use faults::{FaultKind, write_fault};
use std::error::Error;
use std::fmt;

/// The fault of a source.
#[derive(Clone, Copy, Debug, PartialEq, Eq)]
pub enum PlainCut {
    /// The source is not UTF-8: its longest valid prefix has `place` bytes.
    NotUtf8 { place: u32 },
    /// At that place is an `&` with which no reference begins.
    BadReference { place: u32 },
    /// No unit begins at that place.
    BadMarkup { place: u32 },
}

impl PlainCut {
    /// The kind of the fault and its place.
    pub fn kind_and_place(self) -> (FaultKind, u32)
        ensures { result ≡ faults.kind_and_place self }
    {
        match self {
            PlainCut::NotUtf8 { place } => (FaultKind::NotUtf8, place),
            PlainCut::BadReference { place } => (FaultKind::BadReference, place),
            PlainCut::BadMarkup { place } => (FaultKind::BadMarkup, place),
        }
    }
}

impl fmt::Display for PlainCut {
    fn fmt<W: fmt::Write>(&self, f: &mut fmt::Formatter<W>) -> fmt::Result {
        write_fault(f, Some(self.kind_and_place()))
    }
}

impl Error for PlainCut {}

/// Why there is no list of all units of a source.
#[derive(Clone, Copy, Debug, PartialEq, Eq)]
pub enum Cut {
    /// The source is not UTF-8: its longest valid prefix has `place` bytes.
    NotUtf8 { place: u32 },
    /// At that place is an `&` with which no reference begins.
    BadReference { place: u32 },
    /// No unit begins at that place.
    BadMarkup { place: u32 },
    /// The allocator refused a growth.
    Memory,
}

impl Cut {
    /// The kind of the fault and its place, or none where it is that of memory.
    pub fn kind_and_place(self) -> Option<(FaultKind, u32)>
        ensures { result ≡ faults.cut_kind_and_place self }
    {
        match self {
            Cut::NotUtf8 { place } => Some((FaultKind::NotUtf8, place)),
            Cut::BadReference { place } => Some((FaultKind::BadReference, place)),
            Cut::BadMarkup { place } => Some((FaultKind::BadMarkup, place)),
            Cut::Memory => None,
        }
    }
}

impl fmt::Display for Cut {
    fn fmt<W: fmt::Write>(&self, f: &mut fmt::Formatter<W>) -> fmt::Result {
        write_fault(f, self.kind_and_place())
    }
}

impl Error for Cut {}

/// The fault of a source, where a list of its units is asked for.
pub fn cut_of(fault: PlainCut) -> Cut
    ensures { result ≡ faults.cut_of fault }
{
    match fault {
        PlainCut::NotUtf8 { place } => Cut::NotUtf8 { place },
        PlainCut::BadReference { place } => Cut::BadReference { place },
        PlainCut::BadMarkup { place } => Cut::BadMarkup { place },
    }
}
