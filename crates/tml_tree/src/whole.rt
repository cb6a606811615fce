//! The root of all units.
ghost use Rattle.std.specs.Prelude.{◌≡◌, map, IfOk, IfErr};
ghost use Rattle.tml_span.specs.View.{unit_of};
ghost use Rattle.tml_tree.specs.Trees.{Document};
ghost use Rattle.tml_tree.specs.Whole.{UnitsFault};
ghost use Rattle.tml_tree.specs.Whole as whole;
ghost use Rattle.tml_tree.specs.declared.whole.TreeFault.TheVariants as faults;
ghost use Rattle.tml_tree.specs.View.{tag_node};

use crate::Tag;
use crate::builder::Builder;
use faults::{FaultKind, write_fault};
use std::alloc::{AllocError, AllocFailed, Global};
use std::error::Error;
use std::fmt;
use tml_span::Unit;

/// Why units make no tree. A place is the first byte of the unit at fault, which is the first that breaks a rule. Of
/// several rules that it breaks the first in this order counts.
#[derive(Clone, Copy, Debug, PartialEq, Eq)]
pub enum TreeFault {
    /// A start or empty tag whose name is not known.
    UnknownTag { place: u32 },
    /// An end tag whose name is not that of the innermost open tag, or an end tag where no tag is open.
    Unbalanced { place: u32 },
    /// The document ends before the root is closed. The place is its length.
    Unclosed { place: u32 },
    /// A declaration that follows anything but a Bom; a doctype after the first tag, or a second one; text
    /// other than white space outside the root or inside a link tag; a start or empty tag inside a link tag or
    /// after the root; a first tag other than `TimeML`, and `TimeML` inside the root.
    Misplaced { place: u32 },
    /// A start or empty tag where 32 tags are open.
    TooDeep { place: u32 },
    /// The allocator refused a growth.
    Memory,
}

impl TreeFault {
    /// The kind of the fault and its place, or none where it is that memory ran out.
    pub fn kind_and_place(self) -> Option<(FaultKind, u32)>
        ensures { result ≡ whole.kind_and_place self }
    {
        match self {
            TreeFault::UnknownTag { place } => Some((FaultKind::UnknownTag, place)),
            TreeFault::Unbalanced { place } => Some((FaultKind::Unbalanced, place)),
            TreeFault::Unclosed { place } => Some((FaultKind::Unclosed, place)),
            TreeFault::Misplaced { place } => Some((FaultKind::Misplaced, place)),
            TreeFault::TooDeep { place } => Some((FaultKind::TooDeep, place)),
            TreeFault::Memory => None,
        }
    }
}

impl fmt::Display for TreeFault {
    fn fmt<W: fmt::Write>(&self, f: &mut fmt::Formatter<W>) -> fmt::Result {
        write_fault(f, self.kind_and_place())
    }
}

impl Error for TreeFault {}

impl From<AllocError> for TreeFault {
    ghost from_gives = { λ _ e. e ≡ faults.Memory };

    fn from(_e: AllocError) -> TreeFault {
        TreeFault::Memory
    }
}

impl<T: Drop> From<AllocFailed<T>> for TreeFault {
    ghost from_gives = { λ _ e. e ≡ faults.Memory };

    fn from(_e: AllocFailed<T>) -> TreeFault {
        TreeFault::Memory
    }
}

/// The root of the document that the units make. The source of the units has this length.
pub fn root<'s>(alloc: Global, length: u32, units: Vec<Unit<'s>>) -> Result<Tag<'s>, TreeFault>
    ensures ok { IfOk result (λ t. Document (tag_node t) (map unit_of units.entry.items)) }
    ensures fault { IfErr result (λ e. UnitsFault length (map unit_of units.entry.items) e) }
{
    let mut builder = Builder::new(alloc);
    for unit in units {
        builder.take(alloc, unit)?;
    }
    match builder.finish() {
        Some(root) => Ok(root),
        None => Err(TreeFault::Unclosed { place: length }),
    }
}
