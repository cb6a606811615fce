//! Tags and what is in them.
use crate::TagName;
use tml_span::{Attr, List, Span};

/// An element. Its span runs from the first byte of its start tag to past the last one of its end tag; an empty
/// tag is both.
#[cycle(tree)]
#[derive(Drop)]
pub struct Tag<'s> {
    pub span: Span,
    pub name: TagName,
    pub attrs: List<Attr<'s>>,
    pub children: Vec<Node<'s>>,
}

/// What is in a tag. A `text` is all bytes at the span.
#[cycle(tree)]
#[derive(Drop)]
pub enum Node<'s> {
    Text { span: Span, text: &'s [u8] },
    Comment { span: Span, text: &'s [u8] },
    Element(Tag<'s>),
}
