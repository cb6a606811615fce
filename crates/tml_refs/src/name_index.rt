//! The names of a document: which tags have which identifiers.
ghost use Rattle.std.specs.Option.{is_some, is_none};
ghost use Rattle.std.specs.List.{list_any};
ghost use Rattle.std.specs.Prelude.{◌≡◌, List as ListOf, None, IfSome, IsNone};
ghost use Rattle.std.specs.Str.{bytes_eq};
ghost use Rattle.tml_refs.specs.Firsts.{bound, nowhere};
ghost use Rattle.tml_refs.specs.NameIndex as index;
ghost use Rattle.tml_refs.specs.NameIndex.{AreEntriesOf, HasHead, HasIntervalNumber, HasNumber, IsEntryAfter, IsFirstRepeat};
ghost use Rattle.tml_refs.specs.NameIndex.{IsKeyOf, is_either_unlisted, is_listed, is_unlisted};
ghost use Rattle.tml_types.specs.Content.{PlainTyped};
ghost use Rattle.tml_types.specs.References.{id_of, optional_reference, reference};
ghost use Rattle.tml_types.specs.View.{reference_at_end, text_of, typed_of};

use crate::document::DocLink;
use crate::firsts::earlier;
use net_core::{List, Rel};
use std::cmp::Ordering;
use std::marker::Model;
use tml_types::{LinkEnd, TagKind, TypedTag, head_of};

/// A kind of tag and an identifier, with the first bytes of the identifier as a number.
#[derive(Clone, Copy)]
pub struct Key<'s> {
    head: u64,
    name: &'s [u8],
    rank: u8,
}

impl<'s> Key<'s> {
    fn new(kind: TagKind, name: &'s [u8]) -> Key<'s>
        ensures { IsKeyOf (reference kind name.now) result }
    {
        Key {
            head: head_of(name),
            name,
            rank: rank_of(kind),
        }
    }

    /// The order by identifiers and then by kinds. The first bytes are compared first, and mostly they tell.
    fn order(&self, other: &Key<'_>) -> Ordering
        ensures { result ≡ index.key_order self.now other.now }
    {
        if self.head != other.head {
            return self.head.cmp(&other.head);
        }
        self.name.cmp(other.name).then(self.rank.cmp(&other.rank))
    }

    /// Whether two identifiers are the same. Mostly the first bytes tell.
    fn has_name_of(&self, other: &Key<'_>) -> bool
        requires { HasHead self.now × HasHead other.now }
        ensures { result ≡ bytes_eq self.now.name.now other.now.name.now }
    {
        self.head == other.head && self.name == other.name
    }
}

/// The number of a kind of tag, in the order of the variants.
fn rank_of(kind: TagKind) -> u8
    ensures { result ≡ index.rank_of kind }
{
    kind as u8
}

/// A tag that has an identifier.
#[derive(Clone, Copy)]
pub struct Entry<'s> {
    key: Key<'s>,
    /// Where it begins.
    place: u32,
    /// How many intervals stand before it. Where it is an interval, this is its number.
    number: u32,
}

/// The tags of a document that have identifiers, ordered by these and, of one identifier, by their kinds.
#[derive(Drop)]
pub struct NameIndex<'s> {
    entries: Vec<Entry<'s>>,
}

impl<'s> Model for NameIndex<'s> {
    ghost use Rattle.std.specs.Prelude.{List};
    ghost use Rattle.tml_refs.specs.NameIndex.{AreEntriesInOrder};
    ghost use Rattle.tml_refs.specs.declared.name_index.Entry.{Entry};

    ghost Value = { List Entry };

    ghost view = { λ a. a.entries.items };

    ghost invariant = { λ a. AreEntriesInOrder a.entries.items };
}

impl<'s> NameIndex<'s> {
    /// The names of some tags by their entries, in n log n for n entries.
    pub fn new(entries: List<Entry<'s>>) -> NameIndex<'s>
        requires { (tags : ListOf PlainTyped) × AreEntriesOf tags entries }
        ensures { (tags : ListOf PlainTyped) → AreEntriesOf tags entries.entry → AreEntriesOf tags result }
    {
        let mut entries = entries.into_vec();
        entries.sort_unstable_by(|a, b| a.key.order(&b.key));
        NameIndex { entries }
    }

    /// The first place at which a tag begins that has the identifier of a tag before it.
    pub fn first_repeat(&self) -> Option<u32>
        ensures { IsFirstRepeat self.now nowhere (bound result) }
    {
        let entries = self.entries.as_slice();
        let [entry, ..] = entries else {
            return None;
        };
        let mut first = None;
        // The first place of a tag that has the identifier of the last entry.
        let mut least = entry.place;
        for i in 1..entries.len() {
            let place = entries[i].place;
            if entries[i - 1].key.has_name_of(&entries[i].key) {
                first = earlier(first, Some(least.max(place)));
                least = least.min(place);
            } else {
                least = place;
            }
        }
        first
    }

    /// How many intervals stand before the tag of this kind and name, or none where there is no such tag. It takes time
    /// in log n for n tags.
    pub fn number_of(&self, kind: TagKind, name: &[u8]) -> Option<u32>
        ensures listed { is_some result ≡ is_listed self.now (reference kind name.now) }
        ensures number { IfSome result (HasNumber self.now (reference kind name.now)) }
    {
        let key = Key::new(kind, name);
        let entries = self.entries.as_slice();
        match entries.binary_search_by(|entry| entry.key.order(&key)) {
            Ok(i) => Some(entries[i].number),
            Err(_) => None,
        }
    }

    /// No tag of this kind has the name.
    pub fn lacks(&self, kind: TagKind, name: &[u8]) -> bool
        ensures { result ≡ is_unlisted self.now (reference kind name.now) }
    {
        self.number_of(kind, name).is_none()
    }

    /// There is a name, and no tag of this kind has it.
    pub fn lacks_optional(&self, kind: TagKind, name: Option<&[u8]>) -> bool
        ensures { result ≡ list_any (is_unlisted self.now) (optional_reference kind (text_of name.entry)) }
    {
        match name {
            Some(name) => self.lacks(kind, name),
            None => false,
        }
    }

    /// The number of the interval at an end of a link.
    pub fn end(&self, end: LinkEnd<'_>) -> Option<u32>
        ensures listed { is_some result ≡ is_listed self.now (reference_at_end end.entry) }
        ensures number { IfSome result (HasIntervalNumber self.now (reference_at_end end.entry)) }
    {
        match end {
            LinkEnd::Instance(name) => self.number_of(TagKind::Instance, name),
            LinkEnd::Time(name) => self.number_of(TagKind::Timex, name),
        }
    }

    /// The link between two ends, or none where one of them is to no tag.
    pub fn link(&self, left: LinkEnd<'_>, rel: Rel, right: LinkEnd<'_>) -> Option<DocLink>
        ensures none { is_none result ≡ is_either_unlisted self.now (reference_at_end left.entry) (reference_at_end right.entry) }
        ensures left { IfSome result (λ link. HasIntervalNumber self.now (reference_at_end left.entry) link.a) }
        ensures rel { IfSome result (λ link. link.rel ≡ rel) }
        ensures right { IfSome result (λ link. HasIntervalNumber self.now (reference_at_end right.entry) link.b) }
    {
        let a = self.end(left)?;
        let b = self.end(right)?;
        Some(DocLink { a, rel, b })
    }
}

/// The entry of a tag that stands after this many intervals, where it has an identifier.
pub fn entry_of<'s>(tag: &TypedTag<'s>, number: u32) -> Option<Entry<'s>>
    ensures some { IfSome result (IsEntryAfter number (typed_of tag.now)) }
    ensures none { IsNone result → id_of (typed_of tag.now).content ≡ None }
{
    let name = tag.id()?;
    Some(Entry {
        key: Key::new(tag.kind(), name),
        place: tag.place(),
        number,
    })
}
