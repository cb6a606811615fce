//! The references of a document whose typed tags are taken one by one.
ghost use Rattle.std.specs.Prelude.{◌≡◌, List as ListOf, [], IfOk, IfErr, OnOk};
ghost use Rattle.tml_refs.specs.Documents.{Resolved, counts_of};
ghost use Rattle.tml_refs.specs.Rules.{HasReferenceFault};
ghost use Rattle.tml_refs.specs.Taking.{AddsTag, HasTakenTags, KeepsInterval, AddsLink, MayTake, Takes};
ghost use Rattle.tml_types.specs.Content.{PlainTyped};
ghost use Rattle.tml_types.specs.View.{typed_of};

use crate::asked::{AskedReference, ask, first_unlisted};
use crate::contents::Contents;
use crate::document::{Document, Interval};
use crate::firsts::{earlier, first_fault};
use crate::links::{NamedLink, link_up};
use crate::name_index::{Entry, NameIndex, entry_of};
use crate::resolving::RefFault;
use net_core::{List, MAX_INTERVALS, MAX_LINKS, Memory};
use std::alloc::Global;
use tml_types::TypedTag;

/// Takes the typed tags of a document one by one, in document order, and then resolves their references. Of a tag it
/// keeps its identifier and its references, and its interval, where there are not too many, or its link.
#[derive(Drop)]
pub struct Resolver<'s> {
    entries: List<Entry<'s>>,
    asked: List<AskedReference<'s>>,
    contents: Contents<'s>,
    links: List<NamedLink<'s>>,
    past_intervals: Option<u32>,
    past_links: Option<u32>,
}

impl<'s> Resolver<'s> {
    /// Before the first tag. It takes no memory.
    pub fn new(alloc: Global) -> Resolver<'s>
        ensures { HasTakenTags [] result }
    {
        Resolver {
            entries: List::new(alloc),
            asked: List::new(alloc),
            contents: Contents::new(alloc),
            links: List::new(alloc),
            past_intervals: None,
            past_links: None,
        }
    }

    /// Takes one more tag, which begins after those that were taken.
    ///
    /// # Errors
    ///
    /// Out of memory, and then nothing is said of the resolver.
    pub fn take(&mut self, tag: &TypedTag<'s>) -> Result<(), Memory>
        requires { MayTake self.old (typed_of tag.now) }
        ensures { OnOk result (Takes self.old (typed_of tag.now) self.new) }
    {
        let number = self.contents.counts.intervals();
        if let Some(entry) = entry_of(tag, number) {
            self.entries.push(entry)?;
        }
        ask(&mut self.asked, tag)?;
        self.add(number, tag)?;
        self.contents.counts.add(tag.kind());
        Ok(())
    }

    /// Keeps the interval or the link of a tag that stands after this many intervals.
    fn add(&mut self, number: u32, tag: &TypedTag<'s>) -> Result<(), Memory>
        ensures { OnOk result (AddsTag self.old number (typed_of tag.now) self.new) }
    {
        match *tag {
            TypedTag::Instance { place, eiid, .. } => {
                self.add_interval(number, place, Interval::Instance { name: eiid })
            }
            TypedTag::Timex {
                place,
                tid,
                kind,
                modifier,
                value,
                ..
            } => {
                let interval = Interval::Timex {
                    name: tid,
                    kind,
                    modifier,
                    value,
                };
                self.add_interval(number, place, interval)
            }
            TypedTag::Tlink {
                place,
                left,
                rel,
                right,
                ..
            } => {
                self.add_link(NamedLink {
                    place,
                    left,
                    rel,
                    right,
                })
            }
            TypedTag::Event { .. }
            | TypedTag::Signal { .. }
            | TypedTag::Alink { .. }
            | TypedTag::Slink { .. } => Ok(()),
        }
    }

    /// Keeps an interval that stands after this many others, unless there are as many as there may be.
    fn add_interval(
        &mut self,
        number: u32,
        place: u32,
        interval: Interval<'s>,
    ) -> Result<(), Memory>
        ensures { OnOk result (KeepsInterval self.old number place interval.entry self.new) }
    {
        if number == MAX_INTERVALS {
            self.past_intervals = Some(place);
        }
        if number < MAX_INTERVALS {
            self.contents.intervals.push(interval)?;
        }
        Ok(())
    }

    /// Keeps a link.
    fn add_link(&mut self, link: NamedLink<'s>) -> Result<(), Memory>
        ensures { OnOk result (AddsLink self.old link.entry self.new) }
    {
        if self.links.as_slice().len() == MAX_LINKS as usize {
            self.past_links = Some(link.place);
        }
        self.links.push(link)
    }

    /// Resolves the references of the tags that were taken.
    ///
    /// # Errors
    ///
    /// The first tag in document order that has a fault, and of its faults the one with the least number, in the order
    /// of `RefFault`. `Memory` may come at any place.
    pub fn finish(self) -> Result<Document<'s>, RefFault>
        requires { (tags : ListOf PlainTyped) × HasTakenTags tags self }
        ensures ok { IfOk result (λ d. (tags : ListOf PlainTyped) → HasTakenTags tags self.entry → Resolved tags d) }
        ensures err { IfErr result (λ e. (tags : ListOf PlainTyped) → HasTakenTags tags self.entry → HasReferenceFault tags e) }
    {
        let Resolver {
            entries,
            asked,
            mut contents,
            links,
            past_intervals,
            past_links,
        } = self;
        let names = NameIndex::new(entries);
        let repeat = names.first_repeat();
        let unlisted = first_unlisted(&names, asked.as_slice());
        let Ok(loose) = link_up(&names, links.as_slice(), &mut contents.links) else {
            return Err(RefFault::Memory);
        };
        match first_fault(repeat, earlier(unlisted, loose), past_intervals, past_links) {
            Some(fault) => Err(fault),
            None => Ok(Document { contents, names }),
        }
    }
}
