//! Builds a tree from one unit after another.
ghost use Rattle.std.specs.Prelude.{◌≡◌, ◌++◌, [], ◌∷◌, List as ListOf, OnOk, IfErr, MatchOption, IfSome, IsNone};
ghost use Rattle.tml_span.specs.Units as units;
ghost use Rattle.tml_span.specs.Units.{PlainUnit};
ghost use Rattle.tml_span.specs.View.{unit_of};
ghost use Rattle.tml_tree.specs.Plain.{element};
ghost use Rattle.tml_tree.specs.Trees.{Document, Unclosed};
ghost use Rattle.tml_tree.specs.Roots.{EndsIn};
ghost use Rattle.tml_tree.specs.Taking.{KnowsOpenNames, HasBuilt, RefusesUnit, TakesUnit};
ghost use Rattle.tml_tree.specs.View.{node_of, tag_node};
ghost use Rattle.tml_tree.specs.Building.{at_span, element_of, elements_in, empty_unit, start_unit};

use crate::nesting::Nesting;
use crate::{Node, Tag, TagName, TreeFault};
use std::alloc::{AllocError, Global};
use std::mem;
use tml_span::{Attr, List, Span, Unit};

/// A tag that is still open, and the nodes before it, back to the start of the tag about it.
#[derive(Drop)]
pub struct Frame<'s> {
    span: Span,
    name: TagName,
    attrs: List<Attr<'s>>,
    before: Vec<Node<'s>>,
}

/// What the units so far make: the open tags, the innermost last, and the nodes that follow its start tag.
#[derive(Drop)]
pub struct Builder<'s> {
    nesting: Nesting,
    frames: Vec<Frame<'s>>,
    nodes: Vec<Node<'s>>,
}

fn make_element<'s>(
    span: Span,
    name: TagName,
    attrs: List<Attr<'s>>,
    children: Vec<Node<'s>>,
) -> Node<'s>
    ensures { node_of result ≡ element_of span name attrs.entry children.entry.items }
{
    Node::Element(Tag {
        span,
        name,
        attrs,
        children,
    })
}

/// Makes room for one node more. A first one gets room for itself alone, since most elements have one child.
fn reserve_node<'s>(nodes: &mut Vec<Node<'s>>) -> Result<(), AllocError>
    ensures { OnOk result (nodes.new.items ≡ nodes.old.items) }
{
    if nodes.is_empty() {
        nodes.reserve_exact(1)
    } else {
        nodes.reserve(1)
    }
}

/// Adds a node after the others.
fn push_node<'s>(nodes: &mut Vec<Node<'s>>, node: Node<'s>) -> Result<(), AllocError>
    ensures { OnOk result (nodes.new.items ≡ nodes.old.items ++ node.entry ∷ []) }
{
    reserve_node(nodes)?;
    nodes.push(node)?;
    Ok(())
}

/// The last element of nodes.
fn root_of<'s>(nodes: Vec<Node<'s>>) -> Option<Tag<'s>>
    ensures { MatchOption result (elements_in nodes.entry.items ≡ []) (λ t. EndsIn (tag_node t) (elements_in nodes.entry.items)) }
{
    let mut nodes = nodes;
    while let Some(node) = nodes.pop() {
        match node {
            Node::Element(tag) => return Some(tag),
            Node::Text { .. } | Node::Comment { .. } => {}
        }
    }
    None
}

impl<'s> Builder<'s> {
    pub fn new(alloc: Global) -> Builder<'s>
        ensures { HasBuilt [] result }
    {
        Builder {
            nesting: Nesting::new(alloc),
            frames: Vec::new(alloc),
            nodes: Vec::new(alloc),
        }
    }

    /// Takes one more unit, or says what its fault is.
    pub fn take(&mut self, alloc: Global, unit: Unit<'s>) -> Result<(), TreeFault>
        requires { KnowsOpenNames self.old }
        ensures ok { OnOk result (TakesUnit self.old (unit_of unit.entry) self.new) }
        ensures err { IfErr result (λ e. RefusesUnit self.old (unit_of unit.entry) e) }
    {
        match unit {
            Unit::Bom { .. } => Ok(()),
            Unit::Declaration { span, .. } => self.nesting.declaration(span.start),
            Unit::Doctype { span, .. } => self.nesting.doctype(span.start),
            Unit::Comment { span, text } => self.comment(span, text),
            Unit::Text { span, text } => self.text(span, text),
            Unit::StartTag { span, name, attrs } => self.start(alloc, span, name, attrs),
            Unit::EndTag { span, name } => self.end(span, name),
            Unit::EmptyTag { span, name, attrs } => self.empty(alloc, span, name, attrs),
        }
    }

    /// The root, where it was seen whole.
    pub fn finish(self) -> Option<Tag<'s>>
        ensures none { IsNone result → (us : ListOf PlainUnit) → HasBuilt us self.entry → Unclosed us }
        ensures some { IfSome result (λ t. (us : ListOf PlainUnit) → HasBuilt us self.entry → Document (tag_node t) us) }
    {
        if !self.frames.is_empty() {
            return None;
        }
        root_of(self.nodes)
    }

    fn comment(&mut self, span: Span, text: &'s [u8]) -> Result<(), TreeFault>
        ensures ok { OnOk result (TakesUnit self.old (at_span span (units.comment text.now)) self.new) }
        ensures err { IfErr result (λ e. RefusesUnit self.old (at_span span (units.comment text.now)) e) }
    {
        self.nesting.comment();
        push_node(&mut self.nodes, Node::Comment { span, text })?;
        Ok(())
    }

    fn text(&mut self, span: Span, text: &'s [u8]) -> Result<(), TreeFault>
        ensures ok { OnOk result (TakesUnit self.old (at_span span (units.text text.now)) self.new) }
        ensures err { IfErr result (λ e. RefusesUnit self.old (at_span span (units.text text.now)) e) }
    {
        self.nesting.text(span.start, text)?;
        push_node(&mut self.nodes, Node::Text { span, text })?;
        Ok(())
    }

    fn start(
        &mut self,
        alloc: Global,
        span: Span,
        name: &'s [u8],
        attrs: List<Attr<'s>>,
    ) -> Result<(), TreeFault>
        ensures ok { OnOk result (TakesUnit self.old (start_unit span name.now attrs.entry) self.new) }
        ensures err { IfErr result (λ e. RefusesUnit self.old (start_unit span name.now attrs.entry) e) }
    {
        let name = self.nesting.start(span.start, name)?;
        // The room for an element comes before the room for its children, so that a walk meets them in their order.
        reserve_node(&mut self.nodes)?;
        let before = mem::replace(&mut self.nodes, Vec::new(alloc));
        let frame = Frame {
            span,
            name,
            attrs,
            before,
        };
        self.frames.push(frame)?;
        Ok(())
    }

    fn empty(
        &mut self,
        alloc: Global,
        span: Span,
        name: &'s [u8],
        attrs: List<Attr<'s>>,
    ) -> Result<(), TreeFault>
        ensures ok { OnOk result (TakesUnit self.old (empty_unit span name.now attrs.entry) self.new) }
        ensures err { IfErr result (λ e. RefusesUnit self.old (empty_unit span name.now attrs.entry) e) }
    {
        let name = self.nesting.empty(span.start, name)?;
        let node = make_element(span, name, attrs, Vec::new(alloc));
        push_node(&mut self.nodes, node)?;
        Ok(())
    }

    fn end(&mut self, span: Span, name: &[u8]) -> Result<(), TreeFault>
        requires { KnowsOpenNames self.old }
        ensures ok { OnOk result (TakesUnit self.old (at_span span (units.end_tag name.now)) self.new) }
        ensures err { IfErr result (λ e. RefusesUnit self.old (at_span span (units.end_tag name.now)) e) }
    {
        let Some(frame) = self.frames.pop() else {
            return Err(TreeFault::Unbalanced { place: span.start });
        };
        self.nesting.end(span.start, name)?;
        let children = mem::replace(&mut self.nodes, frame.before);
        let whole = Span {
            start: frame.span.start,
            end: span.end,
        };
        let node = make_element(whole, frame.name, frame.attrs, children);
        push_node(&mut self.nodes, node)?;
        Ok(())
    }
}
