//! The typed tags of a source, one by one, as its units are pulled: no tree is built.
ghost use Rattle.std.specs.Prelude.{◌≡◌, ◌<◌, ◌^◌, [], true, length, IfOk, IfErr, OnOk, option_map};
ghost use Rattle.tml_span.specs.Faults.{HasCutFault, HasPlainFault};
ghost use Rattle.tml_span.specs.View.{unit_of};
ghost use Rattle.tml_span.specs.Whole.{CutsWhole};
ghost use Rattle.tml_tree.specs.Judging.{Passes, Refuses};
ghost use Rattle.tml_tree.specs.Walking.{tag_of};
ghost use Rattle.tml_tree.specs.Whole.{HasTreeFault};
ghost use Rattle.tml_types.specs.TagReader as tag_reader;
ghost use Rattle.tml_types.specs.TagReader.{BeginsJudging, FaultsWith, GivesTag, GivesJudged, HasGiven, HasSourceFault, IsUnclosed, MovesOn, begun_tag, is_complete};

use crate::TypeFault;
use crate::attributes::Attributes;
use crate::repeats::NameRoom;
use crate::typed::TypedTag;
use crate::typing::type_one;
use faults::{FaultKind, write_fault};
use std::alloc::Global;
use std::error::Error;
use std::fmt;
use tml_span::{Cut, Cutter, PlainCut, Unit, cut_of};
use tml_tree::{Nesting, TagName, TreeFault};

/// Why a source has no typed tags.
#[derive(Clone, Copy, Debug, PartialEq, Eq)]
pub enum SourceFault {
    /// It is not cut into units whole.
    Cut(Cut),
    /// It is, and its units make no tree.
    Tree(TreeFault),
    /// They do, and a tag is at fault.
    Tag(TypeFault),
}

impl SourceFault {
    /// The kind of the fault and its place, or none where it is that of memory.
    pub fn kind_and_place(self) -> Option<(FaultKind, u32)>
        ensures { result ≡ tag_reader.source_kind_and_place self }
    {
        match self {
            SourceFault::Cut(cut) => cut.kind_and_place(),
            SourceFault::Tree(fault) => fault.kind_and_place(),
            SourceFault::Tag(fault) => fault.kind_and_place(),
        }
    }
}

impl fmt::Display for SourceFault {
    fn fmt<W: fmt::Write>(&self, f: &mut fmt::Formatter<W>) -> fmt::Result {
        write_fault(f, self.kind_and_place())
    }
}

impl Error for SourceFault {}

/// Gives the typed tags of a source one by one, in document order, as its units are read.
#[derive(Drop)]
pub struct TagReader<'s> {
    units: Cutter<'s>,
    nesting: Nesting,
    names: NameRoom<'s>,
}

impl<'s> TagReader<'s> {
    /// Before the first tag of a source of fewer than 2^32 bytes. It takes no memory.
    ///
    /// # Errors
    ///
    /// The fault of the source, where it is not UTF-8.
    pub fn new(alloc: Global, source: &'s [u8]) -> Result<TagReader<'s>, PlainCut>
        requires { length source.now < 2 ^ 32 }
        ensures ok { IfOk result (HasGiven source.now []) }
        ensures begins { IfOk result (BeginsJudging source.now) }
        ensures err { IfErr result (λ e. HasPlainFault source.now e) }
    {
        let units = Cutter::new(source)?;
        Ok(TagReader {
            units,
            nesting: Nesting::new(alloc),
            names: NameRoom::new(alloc),
        })
    }

    /// The next typed tag. None comes where all were given: then the source has no fault of the cut, its units make a
    /// tree, and no tag of it is at fault.
    ///
    /// # Errors
    ///
    /// The fault that `reader` gives for the source; only where it has none the one that `tree_from` gives for its units,
    /// and only where they make a tree the one that `type_tags` gives for its tags: a fault of the cut anywhere comes
    /// before any fault of the tree, and that before any fault of a tag. So what is left is looked at where a unit is
    /// refused or a tag is at fault. `Memory` may come at any place. After a fault the reader has the same source, and how
    /// much of it was read is unspecified.
    pub fn pull(&mut self, alloc: Global) -> Result<Option<TypedTag<'s>>, SourceFault>
        ensures gives { GivesTag self.old self.new result }
        ensures moves { MovesOn self.old self.new result }
        ensures source { self.new.units.source ≡ self.old.units.source }
    {
        loop {
            let unit = match self.units.pull(alloc) {
                Ok(Some(unit)) => unit,
                Ok(None) => {
                    return match self.end() {
                        Ok(()) => Ok(None),
                        Err(unclosed) => Err(SourceFault::Tree(unclosed)),
                    };
                }
                Err(cut) => return Err(SourceFault::Cut(cut)),
            };
            let begun = match judge(&mut self.nesting, &unit) {
                Ok(begun) => begun,
                Err(fault) => return Err(self.refusal(fault)),
            };
            if let Some(tag) = begun {
                match type_one(&mut self.names, tag.name, tag.of) {
                    Ok(None) => self.units.take_back(unit),
                    Ok(Some(typed)) => {
                        self.units.take_back(unit);
                        return Ok(Some(typed));
                    }
                    Err(fault) => return Err(self.fault_with(alloc, fault)),
                }
            }
        }
    }

    /// The next unit, which breaks no rule. None comes where all were given, as from `pull`. The typed tag that it begins,
    /// if it begins one, is left in `tag`: as a part of the answer it would be copied three times.
    ///
    /// # Errors
    ///
    /// Those of `pull`.
    #[inline(always)]
    pub fn pull_unit(
        &mut self,
        alloc: Global,
        tag: &mut Option<TypedTag<'s>>,
    ) -> Result<Option<Unit<'s>>, SourceFault>
        ensures gives { GivesJudged self.old self.new tag.new result }
        ensures moves { MovesOn self.old self.new result }
        ensures source { self.new.units.source ≡ self.old.units.source }
    {
        let unit = match self.units.pull(alloc) {
            Ok(Some(unit)) => unit,
            Ok(None) => {
                return match self.end() {
                    Ok(()) => Ok(None),
                    Err(unclosed) => Err(SourceFault::Tree(unclosed)),
                };
            }
            Err(cut) => return Err(SourceFault::Cut(cut)),
        };
        let begun = match judge(&mut self.nesting, &unit) {
            Ok(begun) => begun,
            Err(fault) => return Err(self.refusal(fault)),
        };
        let Some(begun) = begun else {
            *tag = None;
            return Ok(Some(unit));
        };
        match type_one(&mut self.names, begun.name, begun.of) {
            Ok(None) => {
                *tag = None;
                Ok(Some(unit))
            }
            Ok(typed) => {
                *tag = typed;
                Ok(Some(unit))
            }
            Err(fault) => Err(self.fault_with(alloc, fault)),
        }
    }

    /// Takes back a unit that was given: a later tag has its attributes in the room of these.
    #[inline(always)]
    pub fn take_back(&mut self, unit: Unit<'s>)
        ensures { self.new ≡ self.old }
    {
        self.units.take_back(unit);
    }

    /// What is answered out of memory: the fault of the cut, where the source has one, comes before that.
    pub fn out_of_memory(&self) -> Cut
        ensures { HasCutFault self.now.units.source result }
    {
        self.units.out_of_memory()
    }

    /// The fault of a source of which a unit was refused: that of its cut, where it has one.
    fn refusal(&self, fault: TreeFault) -> SourceFault
        ensures { (CutsWhole self.now.units.source → HasTreeFault self.now.units.source fault) → HasSourceFault self.now.units.source result }
    {
        match self.units.check() {
            Ok(()) => SourceFault::Tree(fault),
            Err(cut) => SourceFault::Cut(cut_of(cut)),
        }
    }

    /// The fault of a source with a tag at fault: that of its cut or of its units, where one of those that are left has one.
    fn fault_with(&mut self, alloc: Global, fault: TypeFault) -> SourceFault
        ensures fault { FaultsWith self.old fault result }
        ensures source { self.new.units.source ≡ self.old.units.source }
    {
        loop {
            match self.units.pull(alloc) {
                Ok(Some(unit)) => {
                    if let Err(refused) = judge(&mut self.nesting, &unit) {
                        return self.refusal(refused);
                    }
                    self.units.take_back(unit);
                }
                Ok(None) => {
                    return match self.end() {
                        Ok(()) => SourceFault::Tag(fault),
                        Err(unclosed) => SourceFault::Tree(unclosed),
                    };
                }
                Err(cut) => return SourceFault::Cut(cut),
            }
        }
    }

    /// Where no unit is left, whether the root was seen whole.
    fn end(&self) -> Result<(), TreeFault>
        ensures ok { IfOk result (λ u. is_complete self.now.nesting ≡ true) }
        ensures err { IfErr result (IsUnclosed self.now) }
    {
        if self.nesting.is_whole() {
            Ok(())
        } else {
            Err(TreeFault::Unclosed {
                place: self.units.place(),
            })
        }
    }
}

/// A tag that a unit begins.
#[derive(Clone, Copy)]
struct Begun<'a, 's> {
    name: TagName,
    of: Attributes<'a, 's>,
}

/// Judges one more unit, and gives the tag that it begins, if it begins one.
#[inline(always)]
fn judge<'a, 's>(
    nesting: &mut Nesting,
    unit: &'a Unit<'s>,
) -> Result<Option<Begun<'a, 's>>, TreeFault>
    ensures begun { IfOk result (λ b. option_map begun_tag b ≡ tag_of (unit_of unit.now)) }
    ensures ok { OnOk result (Passes nesting.old (unit_of unit.now).kind nesting.new) }
    ensures err { IfErr result (Refuses nesting.old (unit_of unit.now).kind (unit_of unit.now).start) }
{
    match unit {
        Unit::Bom { .. } => {}
        Unit::Declaration { span, .. } => nesting.declaration(span.start)?,
        Unit::Doctype { span, .. } => nesting.doctype(span.start)?,
        Unit::Comment { .. } => nesting.comment(),
        Unit::Text { span, text } => nesting.text(span.start, text)?,
        Unit::StartTag { span, name, attrs } => {
            let name = nesting.start(span.start, name)?;
            let of = Attributes {
                place: span.start,
                attrs: attrs.as_slice(),
            };
            return Ok(Some(Begun { name, of }));
        }
        Unit::EndTag { span, name } => nesting.end(span.start, name)?,
        Unit::EmptyTag { span, name, attrs } => {
            let name = nesting.empty(span.start, name)?;
            let of = Attributes {
                place: span.start,
                attrs: attrs.as_slice(),
            };
            return Ok(Some(Begun { name, of }));
        }
    }
    Ok(None)
}
