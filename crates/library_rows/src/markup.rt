//! The units of a text, and their tree.
ghost use Rattle.net_core.specs.Limits.{max_evidence};
ghost use Rattle.std.specs.Prelude.{◌≤◌, length};

use crate::page::Page;
use crate::words::Words;
use named::Named;
use std::alloc::Global;
use tml_canon::canon;
use tml_span::{Cut, reader, units};
use tml_tree::{Node, Tag, TagTree, TreeFault, tree, tree_from};

/// Prints how many units a text has, and of how many bytes, or the place at which it has none.
pub fn print_units(page: &mut Page, alloc: Global, text: &[u8])
    requires { length text.now ≤ max_evidence }
{
    match units(alloc, text) {
        Ok(units) => {
            page.number(units.as_slice().len() as u64);
            page.named(" units of", units.length());
            page.text(" bytes\n");
        }
        Err(why) => print_cut(page, why),
    }
}

/// Prints the place of the tag outside all others, and how many parts are in it, or the place where the units of a text
/// do not nest.
pub fn print_tree(page: &mut Page, alloc: Global, text: &[u8])
    requires { length text.now ≤ max_evidence }
{
    let units = match units(alloc, text) {
        Ok(units) => units,
        Err(why) => return print_cut(page, why),
    };
    match tree(alloc, units) {
        Ok(tree) => print_root(page, tree.root()),
        Err(why) => print_tree_fault(page, why),
    }
}

fn print_root(page: &mut Page, root: &Tag<'_>) {
    page.named("from", root.span.start);
    page.named(" to", root.span.end);
    page.text(", with ");
    page.number(root.children.len() as u64);
    page.text(" parts\n");
}

fn print_cut(page: &mut Page, why: Cut) {
    match why {
        Cut::NotUtf8 { place } | Cut::BadReference { place } | Cut::BadMarkup { place } => {
            page.named("no units at", place);
            page.text("\n");
        }
        Cut::Memory => page.out_of_memory(),
    }
}

/// Prints the kind and the place of a fault.
pub fn print_tree_fault(page: &mut Page, why: TreeFault) {
    match why.kind_and_place() {
        Some((kind, place)) => {
            page.text("no tree, ");
            page.bytes(kind.text());
            page.named(" at", place);
            page.text("\n");
        }
        None => page.out_of_memory(),
    }
}

/// The tree of the units of a text, which are read one by one, if it has one.
pub fn tree_of<'t>(alloc: Global, text: &'t [u8]) -> Option<TagTree<'t>>
    requires { length text.now ≤ max_evidence }
{
    let mut units = reader(text).ok()?;
    tree_from(alloc, &mut units).ok()
}

/// Prints the text that a tree is of.
pub fn print_source(page: &mut Page, alloc: Global, text: &[u8]) -> Option<()>
    requires { length text.now ≤ max_evidence }
{
    let tree = tree_of(alloc, text)?;
    page.bytes(tree.source());
    Some(())
}

/// Prints the canonical text of a tree.
pub fn print_canon(page: &mut Page, alloc: Global, text: &[u8]) -> Option<()>
    requires { length text.now ≤ max_evidence }
{
    let tree = tree_of(alloc, text)?;
    match canon(alloc, &tree) {
        Ok(text) => page.bytes(text.as_slice()),
        Err(_) => page.out_of_memory(),
    }
    Some(())
}

/// Prints the name and the place of the tag outside all others, of the part of it with the number that follows, or of a
/// part of that one.
pub fn print_tag(page: &mut Page, alloc: Global, text: &[u8], words: Words<'_>) -> Option<()>
    requires { length text.now ≤ max_evidence }
{
    let tree = tree_of(alloc, text)?;
    print_place(page, part_of(tree.root(), words)?);
    Some(())
}

/// The part of a tag that the numbers lead to that follow, of which there are two at most.
fn part_of<'t, 's>(root: &'t Tag<'s>, mut words: Words<'_>) -> Option<&'t Tag<'s>> {
    let Some(first) = words.number() else {
        return Some(root);
    };
    let part = child(root, first)?;
    match words.number() {
        Some(second) => child(part, second),
        None => Some(part),
    }
}

fn print_place(page: &mut Page, tag: &Tag<'_>) {
    page.bytes(tag.name.text());
    page.named(" from", tag.span.start);
    page.named(" to", tag.span.end);
    page.text("\n");
}

/// The part of this number, if it is a tag.
fn child<'t, 's>(tag: &'t Tag<'s>, number: u32) -> Option<&'t Tag<'s>> {
    match tag.children.get(number as usize) {
        Some(Node::Element(inner)) => Some(inner),
        _ => None,
    }
}
