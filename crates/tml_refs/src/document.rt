//! The intervals and links of a document, and the names of its intervals.
ghost use Rattle.std.specs.List.{slice_get};
ghost use Rattle.std.specs.Prelude.{◌≡◌, ◌+◌, ◌<◌, ◌^◌, ℕ, length, Some, IfSome, IsNone};
ghost use Rattle.tml_refs.specs.Counting.{AreFew, IsOneMore};
ghost use Rattle.tml_refs.specs.Documents.{IsDocument, IsNamed, interval_name};
ghost use Rattle.tml_refs.specs.View.{plain_interval};

use crate::contents::Contents;
use crate::name_index::NameIndex;
use net_core::Rel;
use std::marker::Model;
use timex_value::{Modifier, TimexKind, Value};
use tml_types::TagKind;

/// How many tags of each kind a document has.
#[derive(Clone, Copy)]
pub struct Counts {
    pub events: u32,
    pub instances: u32,
    pub timex: u32,
    pub signals: u32,
    pub tlinks: u32,
    pub alinks: u32,
    pub slinks: u32,
}

impl Counts {
    pub(crate) const NONE: Counts = Counts {
        events: 0,
        instances: 0,
        timex: 0,
        signals: 0,
        tlinks: 0,
        alinks: 0,
        slinks: 0,
    };

    /// How many tags are intervals.
    pub(crate) fn intervals(&self) -> u32
        requires { self.now.instances + self.now.timex < 2 ^ 32 }
        ensures { result ≡ self.now.instances + self.now.timex }
    {
        self.instances + self.timex
    }

    /// Counts a tag of this kind.
    pub(crate) fn add(&mut self, kind: TagKind)
        requires { AreFew self.old }
        ensures { IsOneMore kind self.old self.new }
    {
        match kind {
            TagKind::Event => self.events += 1,
            TagKind::Instance => self.instances += 1,
            TagKind::Timex => self.timex += 1,
            TagKind::Signal => self.signals += 1,
            TagKind::Tlink => self.tlinks += 1,
            TagKind::Alink => self.alinks += 1,
            TagKind::Slink => self.slinks += 1,
        }
    }
}

/// An interval of time: an event instance or a time, with its identifier. A time has its `type`, and where they are
/// there its `mod` and its `value`.
#[derive(Clone, Copy)]
pub enum Interval<'s> {
    Instance {
        name: &'s [u8],
    },
    Timex {
        name: &'s [u8],
        kind: TimexKind,
        modifier: Option<Modifier>,
        value: Option<Value>,
    },
}

impl<'s> Interval<'s> {
    /// The identifier of the tag.
    pub fn name(self) -> &'s [u8]
        ensures { result.now ≡ interval_name (plain_interval self.entry) }
    {
        match self {
            Interval::Instance { name } | Interval::Timex { name, .. } => name,
        }
    }
}

/// A TLINK, with the numbers of its intervals: `a` is that of `eventInstanceID` or `timeID`, and `b` that of
/// `relatedToEventInstance` or `relatedToTime`.
#[derive(Clone, Copy)]
pub struct DocLink {
    pub a: u32,
    pub rel: Rel,
    pub b: u32,
}

/// A document without fault: how many tags of each kind it has, its intervals and its links. It keeps the order of its
/// names, by which its intervals are found.
#[derive(Drop)]
pub struct Document<'s> {
    pub(crate) contents: Contents<'s>,
    pub(crate) names: NameIndex<'s>,
}

impl<'s> Model for Document<'s> {
    ghost use Rattle.tml_refs.specs.Documents.{PlainDocument};
    ghost use Rattle.tml_refs.specs.NameIndex.{IsIndexedDocument};
    ghost use Rattle.tml_refs.specs.View.{document_of};

    ghost Value = { PlainDocument };

    ghost view = { λ a. document_of a.contents };

    ghost invariant = { λ a. IsIndexedDocument (document_of a.contents) a.names };
}

impl<'s> Document<'s> {
    /// How many tags of each kind the document has.
    pub fn counts(&self) -> Counts
        ensures { result ≡ self.now.counts }
    {
        self.contents.counts
    }

    /// How many intervals the document has, at most `net_core::MAX_INTERVALS`. They are its MAKEINSTANCE and TIMEX3
    /// tags, numbered from 0 in their order.
    pub fn intervals(&self) -> u32
        ensures count { result ≡ length self.now.intervals }
        ensures document { IsDocument self.now }
    {
        self.contents.intervals.as_slice().len() as u32
    }

    /// The interval of this number.
    pub fn interval(&self, i: u32) -> Interval<'s>
        requires { i < length self.now.intervals }
        ensures { slice_get self.now.intervals i ≡ Some (plain_interval result) }
    {
        self.contents.intervals.as_slice()[i as usize]
    }

    /// How many links the document has, at most `net_core::MAX_LINKS`. They are its TLINK tags, numbered from 0 in
    /// their order.
    pub fn links(&self) -> u32
        ensures count { result ≡ length self.now.links }
        ensures document { IsDocument self.now }
    {
        self.contents.links.as_slice().len() as u32
    }

    /// The link of this number. Its ends are numbers of intervals.
    pub fn link(&self, k: u32) -> DocLink
        requires { k < length self.now.links }
        ensures link { slice_get self.now.links k ≡ Some result }
        ensures a { result.a < length self.now.intervals }
        ensures b { result.b < length self.now.intervals }
    {
        self.contents.links.as_slice()[k as usize]
    }

    /// The number of the interval whose identifier this is, or none where it is that of no interval. It takes time in
    /// log n for n tags.
    pub fn index_of(&self, name: &[u8]) -> Option<u32>
        ensures some { IfSome result (IsNamed self.now.intervals name.now) }
        ensures none { IsNone result → (i : ℕ) → IsNamed self.now.intervals name.now i → ⊥ }
    {
        match self.names.number_of(TagKind::Instance, name) {
            Some(number) => Some(number),
            None => self.names.number_of(TagKind::Timex, name),
        }
    }
}
