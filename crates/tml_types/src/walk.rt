//! The typed tags of a document.
ghost use Rattle.std.specs.Prelude.{◌≡◌, IfOk, IfErr, OnOk};
ghost use Rattle.tml_tree.specs.View.{node_of, tag_node};
ghost use Rattle.tml_tree.specs.Walking.{elements};
ghost use Rattle.tml_types.specs.Walking.{AddsTyped};
ghost use Rattle.tml_types.specs.Whole as whole;
ghost use Rattle.tml_types.specs.Whole.{HasTagFault, IsAtLeastPlace, OfTree, Types};

use crate::attributes::Attributes;
use crate::repeats::NameRoom;
use crate::typed::TypedTag;
use crate::typing::type_one;
use faults::{FaultKind, write_fault};
use std::alloc::Global;
use std::error::Error;
use std::fmt;
use std::marker::Model;
use tml_span::List;
use tml_tree::{Node, Tag, TagTree};

/// The tags of a document that mean something, typed, in document order. Their places rise strictly, and there are
/// fewer than 2^32 of them.
#[derive(Drop)]
pub struct Typed<'s> {
    tags: List<TypedTag<'s>>,
}

impl<'s> Model for Typed<'s> {
    ghost use Rattle.std.specs.Prelude.{List as ListOf, map};
    ghost use Rattle.tml_types.specs.Content.{PlainTyped};
    ghost use Rattle.tml_types.specs.Places.{HaveRisingPlaces};
    ghost use Rattle.tml_types.specs.View.{typed_of};

    ghost Value = { ListOf PlainTyped };

    ghost view = { λ a. map typed_of a.tags };

    ghost invariant = { λ a. HaveRisingPlaces (map typed_of a.tags) };
}

impl<'s> Typed<'s> {
    ghost use Rattle.std.specs.Prelude.{map};
    ghost use Rattle.tml_types.specs.Places.{HaveRisingPlaces};
    ghost use Rattle.tml_types.specs.View.{typed_of};

    /// Typed tags in document order, at places that rise.
    pub(crate) fn new(tags: List<TypedTag<'s>>) -> Typed<'s>
        requires { HaveRisingPlaces (map typed_of tags) }
        ensures { result ≡ map typed_of tags.entry }
    {
        Typed { tags }
    }

    /// The typed tags, in document order.
    pub fn as_slice(&self) -> &[TypedTag<'s>]
        ensures tags { map typed_of result.now ≡ self.now }
        ensures placed { HaveRisingPlaces self.now }
    {
        self.tags.as_slice()
    }
}

/// The first tag that is at fault, by the place where it begins, and its first fault.
#[derive(Clone, Copy, Debug, PartialEq, Eq)]
pub enum TypeFault {
    /// Two attributes of the tag have one name. Empty values count too.
    RepeatedAttribute { place: u32 },
    /// An attribute that has to be there is absent or empty, or both of a pair are.
    MissingAttribute { place: u32 },
    /// A value is not of its form.
    BadValue { place: u32 },
    /// Both of a pair are there, and neither is empty.
    Conflict { place: u32 },
    /// The value of a TIMEX3 has the form of a calendar value, and none of the dates and times that it may stand for
    /// exists.
    BadDate { place: u32 },
    /// Out of memory.
    Memory,
}

impl TypeFault {
    /// The kind of the fault and its place, or none where it is that of memory.
    pub fn kind_and_place(self) -> Option<(FaultKind, u32)>
        ensures { result ≡ whole.kind_and_place self }
    {
        match self {
            TypeFault::RepeatedAttribute { place } => Some((FaultKind::RepeatedAttribute, place)),
            TypeFault::MissingAttribute { place } => Some((FaultKind::MissingAttribute, place)),
            TypeFault::BadValue { place } => Some((FaultKind::BadValue, place)),
            TypeFault::Conflict { place } => Some((FaultKind::Conflict, place)),
            TypeFault::BadDate { place } => Some((FaultKind::BadDate, place)),
            TypeFault::Memory => None,
        }
    }
}

impl fmt::Display for TypeFault {
    fn fmt<W: fmt::Write>(&self, f: &mut fmt::Formatter<W>) -> fmt::Result {
        write_fault(f, self.kind_and_place())
    }
}

impl Error for TypeFault {}

/// Types the tags of a tree.
///
/// # Errors
///
/// The first tag in document order that has a fault, and of its faults the one with the least number, in the order
/// of `TypeFault`. `Memory` may come at any place.
pub fn type_tags<'s>(alloc: Global, tree: &TagTree<'s>) -> Result<Typed<'s>, TypeFault>
    ensures ok { IfOk result (λ t. OfTree tree.now (λ tags. Types tags t)) }
    ensures err { IfErr result (λ e. OfTree tree.now (λ tags. HasTagFault tags e)) }
    ensures least { IfErr result (λ e. OfTree tree.now (λ tags. IsAtLeastPlace tags e)) }
{
    let mut typed = List::new(alloc);
    let mut room = NameRoom::new(alloc);
    type_tag(&mut room, tree.root(), &mut typed)?;
    Ok(Typed::new(typed))
}

/// Types a tag and then the tags inside it.
#[cycle(walk)]
fn type_tag<'s>(
    room: &mut NameRoom<'s>,
    tag: &Tag<'s>,
    typed: &mut List<TypedTag<'s>>,
) -> Result<(), TypeFault>
    ensures ok { OnOk result (AddsTyped (elements (tag_node tag.now)) typed.old typed.new) }
    ensures err { IfErr result (λ e. HasTagFault (elements (tag_node tag.now)) e) }
{
    let of = Attributes {
        place: tag.span.start,
        attrs: tag.attrs.as_slice(),
    };
    if let Some(own) = type_one(room, tag.name, of)? {
        if typed.push(own).is_err() {
            return Err(TypeFault::Memory);
        }
    }
    for child in &tag.children {
        type_node(room, child, typed)?;
    }
    Ok(())
}

/// Types the tags of a node.
#[cycle(walk)]
fn type_node<'s>(
    room: &mut NameRoom<'s>,
    node: &Node<'s>,
    typed: &mut List<TypedTag<'s>>,
) -> Result<(), TypeFault>
    ensures ok { OnOk result (AddsTyped (elements (node_of node.now)) typed.old typed.new) }
    ensures err { IfErr result (λ e. HasTagFault (elements (node_of node.now)) e) }
{
    match node {
        Node::Text { .. } | Node::Comment { .. } => Ok(()),
        Node::Element(tag) => type_tag(room, tag, typed),
    }
}
