//! Typed tags: each attribute that means something is read once, in the order of the table. What has to be there comes
//! first, then what each value may be, then that not both of a pair are there, and last whether a date exists. The tags
//! of each kind are typed by a function that is kept out of line, since in one frame they would pay for each other's
//! values.
ghost use Rattle.std.specs.Prelude.{◌≡◌, [], ◌∷◌, IfOk, IfErr, IfSome, IsNone};
ghost use Rattle.tml_tree.specs.declared.tag_name.TagName.TheVariants as tag;
ghost use Rattle.tml_types.specs.Reading.{attrs_of};
ghost use Rattle.tml_types.specs.Table.{attribute_rows};
ghost use Rattle.tml_types.specs.View.{typed_of};
ghost use Rattle.tml_types.specs.Walking.{ReadsTag, RefusesTag, Yields, name_of_kind, tag_at};
ghost use Rattle.tml_types.specs.Whole.{HasTagFault};

use crate::attributes::Attributes;
use crate::repeats::{NameRoom, is_repeated};
use crate::typed::{TagKind, TypedTag};
use crate::{AspectRel, EventClass, SubRel, TypeFault};
use net_core::Rel;
use timex_value::TimexKind;
use tml_span::Memory;
use tml_tree::TagName;

#[inline(never)]
fn event<'s>(of: &Attributes<'_, 's>) -> Result<TypedTag<'s>, TypeFault>
    ensures ok { IfOk result (λ t. ReadsTag tag.Event (attrs_of of.now) of.now.place (typed_of t)) }
    ensures err { IfErr result (λ e. RefusesTag tag.Event (attrs_of of.now) of.now.place e) }
{
    let (eid, class) = of.both_required(b"eid", b"class")?;

    let eid = of.identifier(eid)?;
    let class: EventClass = of.listed(class)?;
    Ok(TypedTag::Event {
        place: of.place,
        eid,
        class,
    })
}

#[inline(never)]
fn instance<'s>(of: &Attributes<'_, 's>) -> Result<TypedTag<'s>, TypeFault>
    ensures ok { IfOk result (λ t. ReadsTag tag.MakeInstance (attrs_of of.now) of.now.place (typed_of t)) }
    ensures err { IfErr result (λ e. RefusesTag tag.MakeInstance (attrs_of of.now) of.now.place e) }
{
    let (eiid, event) = of.both_required(b"eiid", b"eventID")?;

    let eiid = of.identifier(eiid)?;
    let event = of.identifier(event)?;
    Ok(TypedTag::Instance {
        place: of.place,
        eiid,
        event,
        tense: of.optional_listed(b"tense")?,
        aspect: of.optional_listed(b"aspect")?,
        pos: of.optional_listed(b"pos")?,
        polarity: of.optional_listed(b"polarity")?,
        signal: of.optional_identifier(b"signalID")?,
    })
}

#[inline(never)]
fn timex<'s>(of: &Attributes<'_, 's>) -> Result<TypedTag<'s>, TypeFault>
    ensures ok { IfOk result (λ t. ReadsTag tag.Timex3 (attrs_of of.now) of.now.place (typed_of t)) }
    ensures err { IfErr result (λ e. RefusesTag tag.Timex3 (attrs_of of.now) of.now.place e) }
{
    let (tid, kind) = of.both_required(b"tid", b"type")?;

    let tid = of.identifier(tid)?;
    let kind: TimexKind = of.listed(kind)?;
    let modifier = of.optional_listed(b"mod")?;
    let function = of.optional_listed(b"functionInDocument")?;
    let temporal = of.optional_truth(b"temporalFunction")?;
    let anchor = of.optional_identifier(b"anchorTimeID")?;
    let (begin, finish) = of.optional_identifiers(b"beginPoint", b"endPoint")?;

    let value = of.optional_value(b"value")?;
    Ok(TypedTag::Timex {
        place: of.place,
        tid,
        kind,
        value,
        modifier,
        function,
        temporal,
        anchor,
        begin,
        finish,
    })
}

#[inline(never)]
fn signal<'s>(of: &Attributes<'_, 's>) -> Result<TypedTag<'s>, TypeFault>
    ensures ok { IfOk result (λ t. ReadsTag tag.Signal (attrs_of of.now) of.now.place (typed_of t)) }
    ensures err { IfErr result (λ e. RefusesTag tag.Signal (attrs_of of.now) of.now.place e) }
{
    let sid = of.required(b"sid")?;

    let sid = of.identifier(sid)?;
    Ok(TypedTag::Signal {
        place: of.place,
        sid,
    })
}

#[inline(never)]
fn tlink<'s>(of: &Attributes<'_, 's>) -> Result<TypedTag<'s>, TypeFault>
    ensures ok { IfOk result (λ t. ReadsTag tag.Tlink (attrs_of of.now) of.now.place (typed_of t)) }
    ensures err { IfErr result (λ e. RefusesTag tag.Tlink (attrs_of of.now) of.now.place e) }
{
    let rel = of.required(b"relType")?;
    let left = of.either(b"eventInstanceID", b"timeID")?;
    let right = of.either(b"relatedToEventInstance", b"relatedToTime")?;

    let rel: Rel = of.listed(rel)?;
    of.identifiers(left)?;
    of.identifiers(right)?;
    let (lid, signal) = of.optional_identifiers(b"lid", b"signalID")?;

    let (left, right) = of.ends(left, right)?;
    Ok(TypedTag::Tlink {
        place: of.place,
        lid,
        signal,
        left,
        rel,
        right,
    })
}

#[inline(never)]
fn alink<'s>(of: &Attributes<'_, 's>) -> Result<TypedTag<'s>, TypeFault>
    ensures ok { IfOk result (λ t. ReadsTag tag.Alink (attrs_of of.now) of.now.place (typed_of t)) }
    ensures err { IfErr result (λ e. RefusesTag tag.Alink (attrs_of of.now) of.now.place e) }
{
    let event = of.required(b"eventInstanceID")?;
    let (related, rel) = of.both_required(b"relatedToEventInstance", b"relType")?;

    let event = of.identifier(event)?;
    let related = of.identifier(related)?;
    let rel: AspectRel = of.listed(rel)?;
    let (lid, signal) = of.optional_identifiers(b"lid", b"signalID")?;
    Ok(TypedTag::Alink {
        place: of.place,
        lid,
        signal,
        event,
        related,
        rel,
    })
}

#[inline(never)]
fn slink<'s>(of: &Attributes<'_, 's>) -> Result<TypedTag<'s>, TypeFault>
    ensures ok { IfOk result (λ t. ReadsTag tag.Slink (attrs_of of.now) of.now.place (typed_of t)) }
    ensures err { IfErr result (λ e. RefusesTag tag.Slink (attrs_of of.now) of.now.place e) }
{
    let (subordinated, rel) = of.both_required(b"subordinatedEventInstance", b"relType")?;

    let subordinated = of.identifier(subordinated)?;
    let rel: SubRel = of.listed(rel)?;
    let event = of.optional_identifier(b"eventInstanceID")?;
    let (lid, signal) = of.optional_identifiers(b"lid", b"signalID")?;
    Ok(TypedTag::Slink {
        place: of.place,
        lid,
        signal,
        event,
        subordinated,
        rel,
    })
}

/// The kind of the typed tag that a tag of this name has. The root and the wrappers have none.
fn kind_named(name: TagName) -> Option<TagKind>
    ensures some { IfSome result (λ kind. name ≡ name_of_kind kind) }
    ensures none { IsNone result → attribute_rows name ≡ [] }
{
    match name {
        TagName::Event => Some(TagKind::Event),
        TagName::MakeInstance => Some(TagKind::Instance),
        TagName::Timex3 => Some(TagKind::Timex),
        TagName::Signal => Some(TagKind::Signal),
        TagName::Tlink => Some(TagKind::Tlink),
        TagName::Alink => Some(TagKind::Alink),
        TagName::Slink => Some(TagKind::Slink),
        _ => None,
    }
}

/// The typed tag of a tag of this kind that repeats no name of an attribute.
#[inline(always)]
fn typed_tag<'s>(kind: TagKind, of: &Attributes<'_, 's>) -> Result<TypedTag<'s>, TypeFault>
    ensures ok { IfOk result (λ t. ReadsTag (name_of_kind kind) (attrs_of of.now) of.now.place (typed_of t)) }
    ensures err { IfErr result (λ e. RefusesTag (name_of_kind kind) (attrs_of of.now) of.now.place e) }
{
    match kind {
        TagKind::Event => event(of),
        TagKind::Instance => instance(of),
        TagKind::Timex => timex(of),
        TagKind::Signal => signal(of),
        TagKind::Tlink => tlink(of),
        TagKind::Alink => alink(of),
        TagKind::Slink => slink(of),
    }
}

/// The typed tag of a tag of this name, where it has one. A typed tag is large, and each call that hands it on copies it,
/// so this one and `typed_tag` stand in their callers.
#[inline(always)]
pub fn type_one<'s>(
    room: &mut NameRoom<'s>,
    name: TagName,
    of: Attributes<'_, 's>,
) -> Result<Option<TypedTag<'s>>, TypeFault>
    ensures ok { IfOk result (λ t. Yields (tag_at of.entry.place name (attrs_of of.entry)) t) }
    ensures err { IfErr result (λ e. HasTagFault (tag_at of.entry.place name (attrs_of of.entry) ∷ []) e) }
{
    let place = of.place;
    match is_repeated(room, of.attrs) {
        Ok(false) => {}
        Ok(true) => return Err(TypeFault::RepeatedAttribute { place }),
        Err(Memory) => return Err(TypeFault::Memory),
    }
    match kind_named(name) {
        Some(kind) => Ok(Some(typed_tag(kind, &of)?)),
        None => Ok(None),
    }
}
