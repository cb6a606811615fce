//! A tree with its source.
ghost use Rattle.std.specs.Prelude.{◌≡◌, ◌<◌, length, IfOk, IfErr, OnOk};
ghost use Rattle.tml_tree.specs.Pulled.{IsAtEnd, LeavesReading};
ghost use Rattle.tml_tree.specs.Whole.{IsTreeOf, HasUnitFault, HasTreeFault};

use crate::pulled::root_from;
use crate::whole::root;
use crate::{Tag, TreeFault};
use std::alloc::Global;
use std::marker::Model;
use tml_span::{UnitList, UnitReader};

/// The tree of the tags of a document, and its source. Contracts see the source, of which there is one tree.
#[derive(Drop)]
pub struct TagTree<'s> {
    source: &'s [u8],
    root: Tag<'s>,
}

impl<'s> Model for TagTree<'s> {
    ghost use Rattle.std.specs.Prelude.{List, ℕ};
    ghost use Rattle.tml_tree.specs.Whole.{IsTreeOf};
    ghost use Rattle.tml_tree.specs.View.{tag_node};

    ghost Value = { List ℕ };

    ghost view = { λ a. a.source.now };

    ghost invariant = { λ a. IsTreeOf a.source.now (tag_node a.root) };
}

impl<'s> TagTree<'s> {
    ghost use Rattle.tml_tree.specs.Places.{IsLaidOut};
    ghost use Rattle.tml_tree.specs.View.{tag_node};

    /// The one tag outside all others, a `TimeML`.
    pub fn root(&self) -> &Tag<'s>
        ensures tree { IsTreeOf self.now (tag_node result.now) }
        ensures layout { IsLaidOut self.now (tag_node result.now) }
    {
        &self.root
    }

    /// The whole document.
    pub fn source(&self) -> &'s [u8]
        ensures { result.now ≡ self.now }
    {
        self.source
    }
}

/// Nests the units of a reader, which are pulled one by one: no list of them is kept. None of them was given.
///
/// # Errors
///
/// The fault that `tree` gives for the units of the source. After Ok and Unclosed the place of the reader is the end of
/// the source, and after any other fault of a unit the end of that unit. Out of memory it is 0 or the end of a unit.
pub fn tree_from<'s>(alloc: Global, reader: &mut UnitReader<'s>) -> Result<TagTree<'s>, TreeFault>
    requires { reader.old.place ≡ 0 }
    ensures source { IfOk result (λ t. t ≡ reader.old.source) }
    ensures fault { IfErr result (λ e. HasTreeFault reader.old.source e) }
    ensures ends { OnOk result (IsAtEnd reader.old.source reader.new) }
    ensures leaves { IfErr result (λ e. LeavesReading reader.old.source reader.new e) }
{
    let source = reader.source();
    let root = root_from(alloc, reader)?;
    Ok(TagTree { source, root })
}

/// Nests the units of a document. They are consumed on every answer.
pub fn tree<'s>(alloc: Global, units: UnitList<'s>) -> Result<TagTree<'s>, TreeFault>
    ensures source { IfOk result (λ t. t ≡ units.entry.source) }
    ensures fault { IfErr result (λ e. HasUnitFault units.entry e) }
{
    let source = units.source();
    let length = units.length();
    let root = root(alloc, length, units.into_list().into_vec())?;
    Ok(TagTree { source, root })
}
