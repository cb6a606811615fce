//! Writes the canonical text of a document unit by unit: no tree is built.
ghost use Rattle.std.specs.Prelude.{[], OnOk, IfOk, map};
ghost use Rattle.tml_span.specs.Units as units;
ghost use Rattle.tml_span.specs.View.{attribute_of, unit_of};
ghost use Rattle.tml_tree.specs.Judging.{no_history};
ghost use Rattle.tml_canon.specs.Writing.{Closes, GivesText, HasWrittenUnits, Writes};

use crate::canonical::{push_end_tag, push_opening};
use std::alloc::{AllocError, Global};
use tml_span::{Attr, Unit};

/// What is written of the units so far. What stands outside the root is left out.
#[derive(Drop)]
pub struct Writer<'s> {
    text: Vec<u8>,
    /// Room for the attributes of a tag, whatever is in it.
    sorted: Vec<Attr<'s>>,
    /// How many tags are open.
    depth: u32,
    /// The last start tag has no `>` yet, as its end tag may come at once.
    is_bare: bool,
}

impl<'s> Writer<'s> {
    /// Before the first unit.
    pub fn new(alloc: Global) -> Writer<'s>
        ensures { HasWrittenUnits [] no_history result }
    {
        Writer {
            text: Vec::new(alloc),
            sorted: Vec::new(alloc),
            depth: 0,
            is_bare: false,
        }
    }

    /// Writes one more unit.
    pub fn take(&mut self, unit: &Unit<'s>) -> Result<(), AllocError>
        ensures { OnOk result (Writes self.old (unit_of unit.now).kind self.new) }
    {
        match unit {
            Unit::Bom { .. } | Unit::Declaration { .. } | Unit::Doctype { .. } => Ok(()),
            Unit::Comment { text, .. } => self.content(text),
            Unit::Text { text, .. } => self.content(text),
            Unit::StartTag { name, attrs, .. } => self.start(name, attrs.as_slice()),
            Unit::EndTag { name, .. } => self.end(name),
            Unit::EmptyTag { name, attrs, .. } => self.empty(name, attrs.as_slice()),
        }
    }

    /// The text of all units, and a line feed.
    pub fn finish(self) -> Result<Vec<u8>, AllocError>
        ensures { IfOk result (λ text. GivesText self.entry text.items) }
    {
        let mut text = self.text;
        text.extend_from_slice(b"\n")?;
        Ok(text)
    }

    /// Gives the last start tag its `>`, where it has none.
    fn close_start(&mut self) -> Result<(), AllocError>
        ensures { OnOk result (Closes self.old self.new) }
    {
        if !self.is_bare {
            return Ok(());
        }
        self.text.extend_from_slice(b">")?;
        self.is_bare = false;
        Ok(())
    }

    /// Writes a text or a comment, which stays as it is inside the root.
    fn content(&mut self, text: &[u8]) -> Result<(), AllocError>
        ensures text { OnOk result (Writes self.old (units.text text.now) self.new) }
        ensures comment { OnOk result (Writes self.old (units.comment text.now) self.new) }
    {
        if self.depth == 0 {
            return Ok(());
        }
        self.close_start()?;
        self.text.extend_from_slice(text)?;
        Ok(())
    }

    /// Writes a start tag but for its `>`.
    fn start(&mut self, name: &[u8], attrs: &[Attr<'s>]) -> Result<(), AllocError>
        ensures { OnOk result (Writes self.old (units.start_tag name.now (map attribute_of attrs.now)) self.new) }
    {
        self.close_start()?;
        push_opening(&mut self.text, &mut self.sorted, name, attrs)?;
        self.depth = self.depth.saturating_add(1);
        self.is_bare = true;
        Ok(())
    }

    /// Writes an empty tag.
    fn empty(&mut self, name: &[u8], attrs: &[Attr<'s>]) -> Result<(), AllocError>
        ensures { OnOk result (Writes self.old (units.empty_tag name.now (map attribute_of attrs.now)) self.new) }
    {
        self.close_start()?;
        push_opening(&mut self.text, &mut self.sorted, name, attrs)?;
        self.text.extend_from_slice(b"/>")?;
        Ok(())
    }

    /// Writes an end tag, or makes the start tag that it follows an empty tag.
    fn end(&mut self, name: &[u8]) -> Result<(), AllocError>
        ensures { OnOk result (Writes self.old (units.end_tag name.now) self.new) }
    {
        self.depth = self.depth.saturating_sub(1);
        if self.is_bare {
            self.is_bare = false;
            self.text.extend_from_slice(b"/>")?;
            return Ok(());
        }
        push_end_tag(&mut self.text, name)?;
        Ok(())
    }
}
