//! Tags with the values of their attributes.
ghost use Rattle.std.specs.Prelude.{◌≡◌};
ghost use Rattle.tml_types.specs.References as references;
ghost use Rattle.tml_types.specs.View as view;

use crate::listed::{Aspect, AspectRel, DocFunction, EventClass, Polarity, Pos, SubRel, Tense};
use net_core::Rel;
use timex_value::{Modifier, TimexKind, Value};

/// What kind of tag a typed tag is.
#[derive(Clone, Copy)]
pub enum TagKind {
    Event,
    Instance,
    Timex,
    Signal,
    Tlink,
    Alink,
    Slink,
}

/// An end of a TLINK: an event instance or a time, by its identifier.
#[derive(Clone, Copy)]
pub enum LinkEnd<'s> {
    Instance(&'s [u8]),
    Time(&'s [u8]),
}

/// A tag that means something, with the value of each attribute that does. `place` is where the tag begins, as a
/// byte offset from 0. Identifiers and references are slices of the source, of 1 to 64 bytes. What the document
/// may leave out, or leave empty, is None then.
#[derive(Clone, Copy)]
pub enum TypedTag<'s> {
    /// EVENT: `eid` and `class`.
    Event {
        place: u32,
        eid: &'s [u8],
        class: EventClass,
    },
    /// MAKEINSTANCE: `eiid`, `eventID`, `signalID`, `tense`, `aspect`, `pos` and `polarity`.
    Instance {
        place: u32,
        eiid: &'s [u8],
        event: &'s [u8],
        signal: Option<&'s [u8]>,
        tense: Option<Tense>,
        aspect: Option<Aspect>,
        pos: Option<Pos>,
        polarity: Option<Polarity>,
    },
    /// TIMEX3: `tid`, `type`, `value`, `mod`, `functionInDocument`, `temporalFunction`, `anchorTimeID`,
    /// `beginPoint` and `endPoint`.
    Timex {
        place: u32,
        tid: &'s [u8],
        kind: TimexKind,
        value: Option<Value>,
        modifier: Option<Modifier>,
        function: Option<DocFunction>,
        temporal: Option<bool>,
        anchor: Option<&'s [u8]>,
        begin: Option<&'s [u8]>,
        finish: Option<&'s [u8]>,
    },
    /// SIGNAL: `sid`.
    Signal {
        place: u32,
        sid: &'s [u8],
    },
    /// TLINK: `lid`, `signalID`, `eventInstanceID` or `timeID`, `relType`, and `relatedToEventInstance` or
    /// `relatedToTime`.
    Tlink {
        place: u32,
        lid: Option<&'s [u8]>,
        signal: Option<&'s [u8]>,
        left: LinkEnd<'s>,
        rel: Rel,
        right: LinkEnd<'s>,
    },
    /// ALINK: `lid`, `signalID`, `eventInstanceID`, `relatedToEventInstance` and `relType`.
    Alink {
        place: u32,
        lid: Option<&'s [u8]>,
        signal: Option<&'s [u8]>,
        event: &'s [u8],
        related: &'s [u8],
        rel: AspectRel,
    },
    /// SLINK: `lid`, `signalID`, `eventInstanceID`, `subordinatedEventInstance` and `relType`.
    Slink {
        place: u32,
        lid: Option<&'s [u8]>,
        signal: Option<&'s [u8]>,
        event: Option<&'s [u8]>,
        subordinated: &'s [u8],
        rel: SubRel,
    },
}

impl<'s> TypedTag<'s> {
    /// Where the tag begins, as a byte offset from 0.
    pub fn place(&self) -> u32
        ensures { result ≡ (view.typed_of self.now).place }
    {
        match *self {
            TypedTag::Event { place, .. }
            | TypedTag::Instance { place, .. }
            | TypedTag::Timex { place, .. }
            | TypedTag::Signal { place, .. }
            | TypedTag::Tlink { place, .. }
            | TypedTag::Alink { place, .. }
            | TypedTag::Slink { place, .. } => place,
        }
    }

    /// The kind of the tag.
    pub fn kind(&self) -> TagKind
        ensures { result ≡ references.kind_of (view.typed_of self.now).content }
    {
        match self {
            TypedTag::Event { .. } => TagKind::Event,
            TypedTag::Instance { .. } => TagKind::Instance,
            TypedTag::Timex { .. } => TagKind::Timex,
            TypedTag::Signal { .. } => TagKind::Signal,
            TypedTag::Tlink { .. } => TagKind::Tlink,
            TypedTag::Alink { .. } => TagKind::Alink,
            TypedTag::Slink { .. } => TagKind::Slink,
        }
    }

    /// The identifier of the tag. A link may have none.
    pub fn id(&self) -> Option<&'s [u8]>
        ensures { view.text_of result ≡ references.id_of (view.typed_of self.now).content }
    {
        match *self {
            TypedTag::Event { eid, .. } => Some(eid),
            TypedTag::Instance { eiid, .. } => Some(eiid),
            TypedTag::Timex { tid, .. } => Some(tid),
            TypedTag::Signal { sid, .. } => Some(sid),
            TypedTag::Tlink { lid, .. }
            | TypedTag::Alink { lid, .. }
            | TypedTag::Slink { lid, .. } => lid,
        }
    }
}
