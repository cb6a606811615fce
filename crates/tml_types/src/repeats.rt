//! Attributes of one name.
ghost use Rattle.std.specs.List.{IsDistinct};
ghost use Rattle.std.specs.List.Sorted.{IsStrictlyIncreasing};
ghost use Rattle.std.specs.Prelude.{◌≡◌, ◌↔◌, false, map, true, IfOk, IsFalse, IsSorted, OnOk};
ghost use Rattle.tml_span.specs.View.{attribute_of};
ghost use Rattle.tml_types.specs.Heads.{are_same, by_heads, headed_name, name_head};
ghost use Rattle.tml_types.specs.Rules as rules;

use crate::heads::head_of;
use std::alloc::Global;
use tml_span::{Attr, Memory};

/// Up to this number of attributes are compared each with each, which takes no memory.
const FEW: usize = 8;

/// Room in which the names of a tag are sorted, kept for the next tag that has many.
#[derive(Drop)]
pub struct NameRoom<'s> {
    heads: Vec<u64>,
    names: Vec<HeadedName<'s>>,
}

impl<'s> NameRoom<'s> {
    /// Before the first tag. It takes no memory.
    pub fn new(alloc: Global) -> NameRoom<'s> {
        NameRoom {
            heads: Vec::new(alloc),
            names: Vec::new(alloc),
        }
    }
}

/// Whether two attributes have one name. It takes time in n log n for n attributes. It stands in its callers, since most
/// tags have few attributes.
#[inline(always)]
pub fn is_repeated<'s>(room: &mut NameRoom<'s>, attrs: &[Attr<'s>]) -> Result<bool, Memory>
    ensures { IfOk result (λ r. r ≡ rules.is_repeated (map attribute_of attrs.now)) }
{
    if attrs.len() <= FEW {
        return Ok(is_repeated_in_few(attrs));
    }
    is_repeated_in_many(room, attrs)
}

fn is_repeated_in_few(attrs: &[Attr<'_>]) -> bool
    ensures { result ≡ rules.is_repeated (map attribute_of attrs.now) }
{
    let mut left = attrs;
    while let [first, rest @ ..] = left {
        if has_name(first.name, rest) {
            return true;
        }
        left = rest;
    }
    false
}

fn has_name(name: &[u8], attrs: &[Attr<'_>]) -> bool
    ensures { result ≡ rules.has_name name.now (map attribute_of attrs.now) }
{
    for attr in attrs {
        if attr.name == name {
            return true;
        }
    }
    false
}

/// Mostly the first bytes of the names tell them apart, and numbers take the least time to sort.
#[inline(never)]
fn is_repeated_in_many<'s>(room: &mut NameRoom<'s>, attrs: &[Attr<'s>]) -> Result<bool, Memory>
    ensures { IfOk result (λ r. r ≡ rules.is_repeated (map attribute_of attrs.now)) }
{
    if have_distinct_heads(&mut room.heads, attrs)? {
        return Ok(false);
    }
    has_repeated_name(&mut room.names, attrs)
}

/// Whether the first bytes of each name tell it from the others.
fn have_distinct_heads(heads: &mut Vec<u64>, attrs: &[Attr<'_>]) -> Result<bool, Memory>
    ensures { IfOk result (λ d. d ≡ true → rules.is_repeated (map attribute_of attrs.now) ≡ false) }
{
    write_heads(heads, attrs)?;
    heads.sort_unstable();
    Ok(rise(heads.as_slice()))
}

/// Writes the first bytes of the names of attributes as numbers, in their order, in place of what was there.
fn write_heads(heads: &mut Vec<u64>, attrs: &[Attr<'_>]) -> Result<(), Memory>
    ensures { OnOk result (heads.new.items ≡ map name_head attrs.now) }
{
    heads.clear();
    heads.reserve(attrs.len())?;
    for attr in attrs {
        heads.push(head_of(attr.name))?;
    }
    Ok(())
}

/// Whether each number is below the next one.
fn rise(numbers: &[u64]) -> bool
    ensures { result ≡ true → IsStrictlyIncreasing numbers.now }
{
    for later in 1..numbers.len() {
        if numbers[later] <= numbers[later - 1] {
            return false;
        }
    }
    true
}

/// Whether two attributes have one name, by all bytes of their names.
fn has_repeated_name<'s>(
    names: &mut Vec<HeadedName<'s>>,
    attrs: &[Attr<'s>],
) -> Result<bool, Memory>
    ensures { IfOk result (λ r. r ≡ rules.is_repeated (map attribute_of attrs.now)) }
{
    write_names(names, attrs)?;
    names.sort_unstable();
    Ok(has_equal_neighbours(names.as_slice()))
}

/// A name with its first bytes as a number, by which names are compared first.
#[derive(Clone, Copy, PartialEq, Eq, PartialOrd, Ord)]
struct HeadedName<'s> {
    head: u64,
    name: &'s [u8],
}

/// Writes the names of attributes, in their order, in place of what was there.
fn write_names<'s>(names: &mut Vec<HeadedName<'s>>, attrs: &[Attr<'s>]) -> Result<(), Memory>
    ensures { OnOk result (names.new.items ≡ map headed_name attrs.now) }
{
    names.clear();
    names.reserve(attrs.len())?;
    for attr in attrs {
        let head = head_of(attr.name);
        let name = attr.name;
        names.push(HeadedName { head, name })?;
    }
    Ok(())
}

/// Whether two names are equal. In a sorted list such names stand side by side.
fn has_equal_neighbours(names: &[HeadedName<'_>]) -> bool
    requires { IsSorted by_heads names.now }
    ensures { IsFalse result ↔ IsDistinct are_same names.now }
{
    for later in 1..names.len() {
        if names[later - 1] == names[later] {
            return true;
        }
    }
    false
}
