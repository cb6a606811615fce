//! The rules of units, which are judged one after another without a tree.
ghost use Rattle.std.specs.Prelude.{◌≡◌, ◌&&◌, [], IfErr, IfOk, OnOk};
ghost use Rattle.std.specs.List.{list_all, list_any};
ghost use Rattle.std.specs.Str.{bytes_eq};
ghost use Rattle.tml_span.specs.Bytes.{is_white};
ghost use Rattle.tml_span.specs.Units as units;
ghost use Rattle.tml_tree.specs.Judging as judging;
ghost use Rattle.tml_tree.specs.Judging.{MayStartTag, Passes, Refuses};
ghost use Rattle.tml_tree.specs.Rules as rules;
ghost use Rattle.tml_tree.specs.TagNames as names;

use crate::{TagName, TreeFault};
use std::alloc::Global;
use std::marker::Model;
use tml_span::is_white;

/// How many tags may be open at once.
const MOST_OPEN: usize = 32;

/// The text is white space alone.
fn is_blank(text: &[u8]) -> bool
    ensures { result ≡ list_all is_white text.now }
{
    text.iter().all(|b| is_white(*b))
}

/// The name is that of the tag.
fn is_name_of(tag: TagName, name: &[u8]) -> bool
    ensures { result ≡ bytes_eq (names.text_of tag) name.now }
{
    tag.text() == name
}

/// A tag that holds no tag, and no text but white space.
fn is_link(name: TagName) -> bool
    ensures { result ≡ names.is_link (names.text_of name) }
{
    matches!(
        name,
        TagName::MakeInstance | TagName::Tlink | TagName::Alink | TagName::Slink
    )
}

/// What the rules ask about the units so far: the names of the open tags, the innermost last; whether a unit other than
/// a Bom stood among the units, a tag, a doctype; and whether the root was seen whole. Contracts see a `History`. Each
/// method takes one more unit, or gives its first fault, after which no more units are taken.
#[derive(Drop)]
pub struct Nesting {
    open: Vec<TagName>,
    begun: bool,
    tagged: bool,
    doctyped: bool,
    seen: bool,
}

impl Model for Nesting {
    ghost use Rattle.tml_tree.specs.Judging.{OnlyInnermost, names_in};
    ghost use Rattle.tml_tree.specs.Rules.{History};

    ghost Value = { History };

    ghost view = { λ a. record { begun = a.begun; tagged = a.tagged; doctyped = a.doctyped; names = names_in a.open.items; seen = a.seen } };

    ghost invariant = { λ a. OnlyInnermost (names_in a.open.items) };
}

impl Nesting {
    /// Before the first unit.
    pub fn new(alloc: Global) -> Nesting
        ensures { result ≡ judging.no_history }
    {
        Nesting {
            open: Vec::new(alloc),
            begun: false,
            tagged: false,
            doctyped: false,
            seen: false,
        }
    }

    /// No tag is open, and the root was seen whole.
    pub fn is_whole(&self) -> bool
        ensures { result ≡ (rules.is_nil self.now.names && self.now.seen) }
    {
        self.open.is_empty() && self.seen
    }

    /// A declaration at a place.
    pub fn declaration(&mut self, place: u32) -> Result<(), TreeFault>
        ensures ok { OnOk result (Passes self.old (units.declaration []) self.new) }
        ensures err { IfErr result (Refuses self.old (units.declaration []) place) }
    {
        if self.begun {
            return Err(TreeFault::Misplaced { place });
        }
        self.begun = true;
        Ok(())
    }

    /// A doctype at a place.
    pub fn doctype(&mut self, place: u32) -> Result<(), TreeFault>
        ensures ok { OnOk result (Passes self.old (units.doctype []) self.new) }
        ensures err { IfErr result (Refuses self.old (units.doctype []) place) }
    {
        if self.tagged || self.doctyped {
            return Err(TreeFault::Misplaced { place });
        }
        self.begun = true;
        self.doctyped = true;
        Ok(())
    }

    /// A comment, which may stand anywhere.
    pub fn comment(&mut self)
        ensures { Passes self.old (units.comment []) self.new }
    {
        self.begun = true;
    }

    /// A text at a place.
    pub fn text(&mut self, place: u32, text: &[u8]) -> Result<(), TreeFault>
        ensures ok { OnOk result (Passes self.old (units.text text.now) self.new) }
        ensures err { IfErr result (Refuses self.old (units.text text.now) place) }
    {
        if (self.open.is_empty() || self.in_link()) && !is_blank(text) {
            return Err(TreeFault::Misplaced { place });
        }
        self.begun = true;
        Ok(())
    }

    /// A start tag of this name at a place. Its tag is open then.
    pub fn start(&mut self, place: u32, name: &[u8]) -> Result<TagName, TreeFault>
        ensures name { IfOk result (λ tag. names.text_of tag ≡ name.now) }
        ensures ok { OnOk result (Passes self.old (units.start_tag name.now []) self.new) }
        ensures err { IfErr result (Refuses self.old (units.start_tag name.now []) place) }
    {
        let tag = self.tag(place, name)?;
        self.open.push(tag)?;
        self.begun = true;
        self.tagged = true;
        self.seen = false;
        Ok(tag)
    }

    /// An empty tag of this name at a place.
    pub fn empty(&mut self, place: u32, name: &[u8]) -> Result<TagName, TreeFault>
        ensures name { IfOk result (λ tag. names.text_of tag ≡ name.now) }
        ensures ok { OnOk result (Passes self.old (units.empty_tag name.now []) self.new) }
        ensures err { IfErr result (Refuses self.old (units.empty_tag name.now []) place) }
    {
        let tag = self.tag(place, name)?;
        self.begun = true;
        self.tagged = true;
        self.seen = self.open.is_empty();
        Ok(tag)
    }

    /// An end tag of this name at a place. The innermost tag is closed then.
    pub fn end(&mut self, place: u32, name: &[u8]) -> Result<(), TreeFault>
        ensures ok { OnOk result (Passes self.old (units.end_tag name.now) self.new) }
        ensures err { IfErr result (Refuses self.old (units.end_tag name.now) place) }
    {
        let Some(tag) = self.open.pop() else {
            return Err(TreeFault::Unbalanced { place });
        };
        if !is_name_of(tag, name) {
            return Err(TreeFault::Unbalanced { place });
        }
        self.begun = true;
        self.tagged = true;
        self.seen = self.open.is_empty();
        Ok(())
    }

    /// One of the open tags is a link tag. Only the innermost can be one, since no tag may begin inside.
    fn in_link(&self) -> bool
        ensures { result ≡ list_any names.is_link self.now.names }
    {
        match self.open.as_slice() {
            [.., innermost] => is_link(*innermost),
            [] => false,
        }
    }

    fn is_misplaced(&self, name: TagName) -> bool
        ensures { result ≡ rules.is_misplaced_tag self.now (names.text_of name) }
    {
        let is_root = name == TagName::TimeMl;
        self.in_link() || !self.tagged && !is_root || self.seen || !self.open.is_empty() && is_root
    }

    /// The tag of this name, or the first fault of a start or empty tag of this name at a place.
    #[inline(always)]
    fn tag(&self, place: u32, name: &[u8]) -> Result<TagName, TreeFault>
        ensures { MayStartTag self.now place name.now result }
    {
        let Some(tag) = TagName::of(name) else {
            return Err(TreeFault::UnknownTag { place });
        };
        if self.is_misplaced(tag) {
            return Err(TreeFault::Misplaced { place });
        }
        if self.open.len() >= MOST_OPEN {
            return Err(TreeFault::TooDeep { place });
        }
        Ok(tag)
    }
}
