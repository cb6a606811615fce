//! What the tags of a document ask for, but for the ends of its links.
ghost use Rattle.std.specs.Prelude.{◌<◌, [], ◌∷◌, OnOk};
ghost use Rattle.tml_refs.specs.Asking.{Asks, AsksOf, IsUnlistedAt, NoneIsUnlisted};
ghost use Rattle.tml_refs.specs.Firsts.{bound, nowhere};
ghost use Rattle.tml_types.specs.References.{optional_reference, reference};
ghost use Rattle.tml_types.specs.View.{text_of, typed_of};

use crate::firsts::earlier;
use crate::name_index::NameIndex;
use net_core::{List, Memory};
use tml_types::{TagKind, TypedTag};

/// A reference of a tag, and where the tag begins.
#[derive(Clone, Copy)]
pub struct AskedReference<'s> {
    place: u32,
    kind: TagKind,
    name: &'s [u8],
}

/// Appends the references of a tag, but for the ends of a TLINK.
pub fn ask<'s>(asked: &mut List<AskedReference<'s>>, tag: &TypedTag<'s>) -> Result<(), Memory>
    ensures { OnOk result (AsksOf (typed_of tag.now) asked.old asked.new) }
{
    match *tag {
        TypedTag::Event { .. } | TypedTag::Signal { .. } => Ok(()),
        TypedTag::Instance {
            place,
            event,
            signal,
            ..
        } => {
            ask_for(asked, place, TagKind::Event, event)?;
            ask_where(asked, place, TagKind::Signal, signal)
        }
        TypedTag::Timex {
            place,
            anchor,
            begin,
            finish,
            ..
        } => {
            ask_where(asked, place, TagKind::Timex, anchor)?;
            ask_where(asked, place, TagKind::Timex, begin)?;
            ask_where(asked, place, TagKind::Timex, finish)
        }
        TypedTag::Tlink { place, signal, .. } => ask_where(asked, place, TagKind::Signal, signal),
        TypedTag::Alink {
            place,
            signal,
            event,
            related,
            ..
        } => {
            ask_for(asked, place, TagKind::Instance, event)?;
            ask_for(asked, place, TagKind::Instance, related)?;
            ask_where(asked, place, TagKind::Signal, signal)
        }
        TypedTag::Slink {
            place,
            signal,
            event,
            subordinated,
            ..
        } => {
            ask_for(asked, place, TagKind::Instance, subordinated)?;
            ask_where(asked, place, TagKind::Instance, event)?;
            ask_where(asked, place, TagKind::Signal, signal)
        }
    }
}

/// Appends a reference.
fn ask_for<'s>(
    asked: &mut List<AskedReference<'s>>,
    place: u32,
    kind: TagKind,
    name: &'s [u8],
) -> Result<(), Memory>
    ensures { OnOk result (Asks place (reference kind name.now ∷ []) asked.old asked.new) }
{
    asked.push(AskedReference { place, kind, name })
}

/// Appends a reference that a tag may leave out, where it is there.
fn ask_where<'s>(
    asked: &mut List<AskedReference<'s>>,
    place: u32,
    kind: TagKind,
    name: Option<&'s [u8]>,
) -> Result<(), Memory>
    ensures { OnOk result (Asks place (optional_reference kind (text_of name.entry)) asked.old asked.new) }
{
    match name {
        Some(name) => ask_for(asked, place, kind, name),
        None => Ok(()),
    }
}

/// The first place of a tag with a reference to no tag.
pub fn first_unlisted(names: &NameIndex<'_>, asked: &[AskedReference<'_>]) -> Option<u32>
    ensures before { NoneIsUnlisted names.now asked.now (bound result) }
    ensures here { bound result < nowhere → IsUnlistedAt names.now asked.now (bound result) }
{
    let mut first = None;
    for reference in asked {
        if names.lacks(reference.kind, reference.name) {
            first = earlier(first, Some(reference.place));
        }
    }
    first
}
