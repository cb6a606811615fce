//! The canonical text of a tree.
ghost use Rattle.std.specs.List.{flat_map};
ghost use Rattle.std.specs.Prelude.{IfOk, OnOk, codes, map, ◌++◌, ◌≡◌};
ghost use Rattle.tml_canon.specs.Canonical as spec;
ghost use Rattle.tml_span.specs.Units.{end_tag};
ghost use Rattle.tml_span.specs.View.{attribute_of};
ghost use Rattle.tml_span.specs.Written.{attribute_text, unit_text};
ghost use Rattle.tml_tree.specs.Plain.{PlainNode};
ghost use Rattle.tml_tree.specs.View.{node_of, tag_node};
ghost use Rattle.tml_tree.specs.Whole.{IsTreeOf};
ghost use Rattle.tml_tree.specs.Written.{node_text};

use memchr::memchr;
use std::alloc::{AllocError, Global};
use tml_io::{List, Memory};
use tml_span::Attr;
use tml_tree::{Node, Tag, TagTree};

/// The canonical text of a tree: that of its root, and a line feed. What stands outside the root is dropped; a tag without
/// children is an empty tag; attributes stand in the byte order of their names, each after one space and with its value
/// between double quotes, in which `&quot;` stands for `"`. Nothing else changes.
///
/// # Errors
///
/// Out of memory.
pub fn canon(alloc: Global, tree: &TagTree<'_>) -> Result<List<u8>, Memory>
    ensures { IfOk result (λ text. (root : PlainNode) × IsTreeOf tree.now root × (text ≡ spec.canonical_text root)) }
{
    Ok(List::from_vec(text_of(alloc, tree.root())?))
}

/// The canonical text of a root.
fn text_of(alloc: Global, root: &Tag<'_>) -> Result<Vec<u8>, AllocError>
    ensures { IfOk result (λ text. text.items ≡ spec.canonical_text (tag_node root.now)) }
{
    let mut text = Vec::new(alloc);
    let mut sorted = Vec::new(alloc);
    push_tag(&mut text, &mut sorted, root)?;
    text.extend_from_slice(b"\n")?;
    Ok(text)
}

/// Appends the text of an element. `sorted` is room for attributes, whatever is in it.
#[cycle(push)]
fn push_tag<'s>(
    out: &mut Vec<u8>,
    sorted: &mut Vec<Attr<'s>>,
    tag: &Tag<'s>,
) -> Result<(), AllocError>
    ensures { OnOk result (out.new.items ≡ out.old.items ++ node_text (spec.canonical (tag_node tag.now))) }
{
    push_opening(out, sorted, tag.name.text(), tag.attrs.as_slice())?;
    let children = tag.children.as_slice();
    if children.is_empty() {
        return out.extend_from_slice(b"/>");
    }
    out.extend_from_slice(b">")?;
    for node in children {
        push_node(out, sorted, node)?;
    }
    push_end_tag(out, tag.name.text())
}

/// Appends the text of a node.
#[cycle(push)]
fn push_node<'s>(
    out: &mut Vec<u8>,
    sorted: &mut Vec<Attr<'s>>,
    node: &Node<'s>,
) -> Result<(), AllocError>
    ensures { OnOk result (out.new.items ≡ out.old.items ++ node_text (spec.canonical (node_of node.now))) }
{
    match node {
        Node::Text { text, .. } | Node::Comment { text, .. } => out.extend_from_slice(text),
        Node::Element(tag) => push_tag(out, sorted, tag),
    }
}

/// Appends what a start tag and an empty tag begin with: `<`, the name and the attributes.
pub fn push_opening<'s>(
    out: &mut Vec<u8>,
    sorted: &mut Vec<Attr<'s>>,
    name: &[u8],
    attrs: &[Attr<'s>],
) -> Result<(), AllocError>
    ensures { OnOk result (out.new.items ≡ out.old.items ++ spec.opening name.now (spec.canonical_attributes (map attribute_of attrs.now))) }
{
    out.extend_from_slice(b"<")?;
    out.extend_from_slice(name)?;
    push_attributes(out, sorted, attrs)
}

/// Appends an end tag.
pub fn push_end_tag(out: &mut Vec<u8>, name: &[u8]) -> Result<(), AllocError>
    ensures { OnOk result (out.new.items ≡ out.old.items ++ unit_text (end_tag name.now)) }
{
    out.extend_from_slice(b"</")?;
    out.extend_from_slice(name)?;
    out.extend_from_slice(b">")
}

/// Appends the attributes of a tag, in the byte order of their names.
fn push_attributes<'s>(
    out: &mut Vec<u8>,
    sorted: &mut Vec<Attr<'s>>,
    attrs: &[Attr<'s>],
) -> Result<(), AllocError>
    ensures { OnOk result (out.new.items ≡ out.old.items ++ flat_map attribute_text (spec.canonical_attributes (map attribute_of attrs.now))) }
{
    if attrs.is_sorted_by(|a, b| a.name.cmp(b.name).is_le()) {
        return push_each(out, attrs);
    }
    sorted.clear();
    sorted.extend_from_slice(attrs)?;
    sorted.sort_by(|a, b| a.name.cmp(b.name))?;
    push_each(out, sorted.as_slice())
}

/// Appends attributes, in the order in which they stand.
fn push_each(out: &mut Vec<u8>, attrs: &[Attr<'_>]) -> Result<(), AllocError>
    ensures { OnOk result (out.new.items ≡ out.old.items ++ flat_map attribute_text (map spec.canonical_attribute (map attribute_of attrs.now))) }
{
    for attr in attrs {
        push_attribute(out, attr)?;
    }
    Ok(())
}

/// Appends an attribute, with its value between double quotes.
fn push_attribute(out: &mut Vec<u8>, attr: &Attr<'_>) -> Result<(), AllocError>
    ensures { OnOk result (out.new.items ≡ out.old.items ++ attribute_text (spec.canonical_attribute (attribute_of attr.now))) }
{
    out.extend_from_slice(b" ")?;
    out.extend_from_slice(attr.name)?;
    out.extend_from_slice(b"=\"")?;
    push_value(out, attr.value)?;
    out.extend_from_slice(b"\"")
}

/// Appends a value, with `&quot;` for each `"`.
fn push_value(out: &mut Vec<u8>, value: &[u8]) -> Result<(), AllocError>
    ensures { OnOk result (out.new.items ≡ out.old.items ++ spec.quoted value.now) }
{
    let mut rest = value;
    while let Some(at) = memchr(b'"', rest) {
        out.extend_from_slice(&rest[..at])?;
        out.extend_from_slice(b"&quot;")?;
        rest = &rest[at + 1..];
    }
    out.extend_from_slice(rest)
}
