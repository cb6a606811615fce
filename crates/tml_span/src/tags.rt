//! Tags and their attributes, read from left to right.
ghost use Rattle.std.specs.Prelude.{[], true, ◌≡◌, ◌≢◌, ◌+◌, ◌<◌, ◌≤◌, ◌^◌, ◌∷◌, ◌++◌, codes, cond, Bool, slice_index, List as ListOf, ℕ, length, map, option_map, IfOk, OnOk, IfSome, MatchOption};
ghost use Rattle.tml_span.specs.Reading as reading;
ghost use Rattle.tml_span.specs.View.{ReadsUnit, attribute_of, quote_byte};
ghost use Rattle.tml_span.specs.Bytes as kinds;

use crate::bytes::{is_name_start, name_len, value_len, white_len};
use crate::room::Room;
use crate::{Attr, List, Memory, Quote, Span, Unit};
use std::alloc::Global;

pub fn after_white(bytes: &[u8]) -> &[u8]
    ensures white { result.now ≡ reading.after_white bytes.now }
    ensures shorter { length result.now ≤ length bytes.now }
{
    let len = white_len(bytes);
    &bytes[len..]
}

fn after_byte(b: u8, bytes: &[u8]) -> Option<&[u8]>
    ensures reads { option_map (λ r. r.now) result ≡ reading.after_byte b bytes.now }
    ensures shorter { IfSome result (λ r. length r.now < length bytes.now) }
{
    match bytes {
        [first, rest @ ..] if *first == b => Some(rest),
        _ => None,
    }
}

/// A name, and what follows it.
#[tactic(auto, unfolding(crate::specs::Reading::name_at))]
pub fn name_at(bytes: &[u8]) -> Option<(&[u8], &[u8])>
    ensures reads { option_map (λ r. (r.0.now, r.1.now)) result ≡ reading.name_at bytes.now }
    ensures len { IfSome result (λ r. length r.0.now + length r.1.now ≡ length bytes.now) }
{
    match bytes {
        [first, ..] if is_name_start(*first) => Some(bytes.split_at(name_len(bytes))),
        _ => None,
    }
}

#[tactic(auto, unfolding(crate::specs::Reading::quote_at))]
fn quote_at(bytes: &[u8]) -> Option<(Quote, &[u8])>
    ensures reads { option_map (λ r. (quote_byte r.0, r.1.now)) result ≡ reading.quote_at bytes.now }
    ensures shorter { IfSome result (λ r. length r.1.now < length bytes.now) }
{
    match bytes {
        [b'"', rest @ ..] => Some((Quote::Double, rest)),
        [b'\'', rest @ ..] => Some((Quote::Single, rest)),
        _ => None,
    }
}

fn byte_of(quote: Quote) -> u8
    ensures { result ≡ quote_byte quote }
{
    match quote {
        Quote::Single => b'\'',
        Quote::Double => b'"',
    }
}

/// A value between two quotes, and what follows it.
#[tactic(auto, unfolding(crate::specs::Reading::value_at))]
fn value_at(bytes: &[u8]) -> Option<(Quote, &[u8], &[u8])>
    ensures reads { option_map (λ r. (quote_byte r.0, r.1.now, r.2.now)) result ≡ reading.value_at bytes.now }
    ensures shorter { IfSome result (λ r. length r.2.now < length bytes.now) }
{
    let (quote, inner) = quote_at(bytes)?;
    let byte = byte_of(quote);
    let (value, closing) = inner.split_at(value_len(byte, inner));
    let rest = after_byte(byte, closing)?;
    Some((quote, value, rest))
}

/// An attribute after white space, and what follows it. It stands in its callers, so that what it answers need not be
/// copied from it.
#[inline(always)]
#[tactic(auto, unfolding(crate::specs::Reading::attribute_at))]
pub fn attribute_at<'s>(place: u32, bytes: &'s [u8]) -> Option<(Attr<'s>, &'s [u8])>
    requires { place + length bytes.now < 2 ^ 32 }
    ensures reads { option_map (λ r. (attribute_of r.0, r.1.now)) result ≡ reading.attribute_at place bytes.now }
    ensures shorter { IfSome result (λ r. length r.1.now < length bytes.now) }
{
    let white = white_len(bytes);
    if white == 0 {
        return None;
    }
    let (_, named) = bytes.split_at(white);
    let (name, left) = name_at(named)?;
    let right = after_byte(b'=', after_white(left))?;
    let (quote, value, rest) = value_at(after_white(right))?;
    let span = Span {
        start: place + white as u32,
        end: place + (bytes.len() - rest.len()) as u32,
    };
    Some((
        Attr {
            name,
            value,
            quote,
            span,
        },
        rest,
    ))
}

/// The attributes and one more. With the first one they get room.
#[inline(always)]
fn with_attribute<'s>(
    room: &mut Room<'s>,
    alloc: Global,
    attrs: List<Attr<'s>>,
    attr: Attr<'s>,
) -> Result<List<Attr<'s>>, Memory>
    ensures { IfOk result (λ all. all ≡ attrs.entry ++ attr.entry ∷ []) }
{
    let mut all = if attrs.as_slice().is_empty() {
        room.take(alloc)?
    } else {
        attrs
    };
    all.push(attr)?;
    Ok(all)
}

/// As many attributes as there are, and what follows them. They lie in the room, where some was kept.
fn attributes_at<'s>(
    room: &mut Room<'s>,
    alloc: Global,
    place: u32,
    bytes: &'s [u8],
) -> Result<(List<Attr<'s>>, &'s [u8]), Memory>
    requires { place + length bytes.now < 2 ^ 32 }
    ensures reads { IfOk result (λ r. reading.ReadsAttributes place bytes.now (map attribute_of r.0) r.1.now) }
    ensures shorter { IfOk result (λ r. length r.1.now ≤ length bytes.now) }
{
    let mut attrs = List::new(alloc);
    let mut at = place;
    let mut rest = bytes;
    while let Some((attr, after)) = attribute_at(at, rest) {
        attrs = with_attribute(room, alloc, attrs, attr)?;
        at += (rest.len() - after.len()) as u32;
        rest = after;
    }
    Ok((attrs, rest))
}

/// The `>` or `/>` of a tag, true for `/>`, and what follows it.
pub fn close_at(bytes: &[u8]) -> Option<(bool, &[u8])>
    ensures close { MatchOption result
        ((is_empty : Bool) (rest : ListOf ℕ) → bytes.now ≢ cond is_empty (codes "/>") (codes ">") ++ rest)
        (λ r. bytes.now ≡ cond r.0 (codes "/>") (codes ">") ++ r.1.now) }
    ensures shorter { IfSome result (λ r. length r.1.now < length bytes.now) }
{
    match bytes {
        [b'>', rest @ ..] => Some((false, rest)),
        [b'/', b'>', rest @ ..] => Some((true, rest)),
        _ => None,
    }
}

/// A start tag or an empty tag after its `<`, with which none of the other units begins.
pub fn tag_at<'s>(
    room: &mut Room<'s>,
    alloc: Global,
    place: u32,
    bytes: &'s [u8],
) -> Result<Option<(Unit<'s>, &'s [u8])>, Memory>
    requires fits { place + length bytes.now + 1 < 2 ^ 32 }
    requires slash { slice_index bytes.now 0 ≢ kinds.byte (codes "/") }
    requires bang { slice_index bytes.now 0 ≢ kinds.byte (codes "!") }
    requires query { slice_index bytes.now 0 ≢ kinds.byte (codes "?") }
    ensures unit { IfOk result (λ o. ReadsUnit place (codes "<" ++ bytes.now) o) }
    ensures shorter { IfOk result (λ o. IfSome o (λ r. length r.1.now ≤ length bytes.now)) }
{
    let Some((name, mid)) = name_at(bytes) else {
        return Ok(None);
    };
    let (attrs, after) = attributes_at(room, alloc, place + 1 + name.len() as u32, mid)?;
    let Some((is_empty, rest)) = close_at(after_white(after)) else {
        return Ok(None);
    };
    let span = Span {
        start: place,
        end: place + (bytes.len() + 1 - rest.len()) as u32,
    };
    if is_empty {
        return Ok(Some((Unit::EmptyTag { span, name, attrs }, rest)));
    }
    Ok(Some((Unit::StartTag { span, name, attrs }, rest)))
}

/// An end tag after its `</`. It stands in its callers, of which one wants only where the tag ends.
#[inline(always)]
pub fn end_tag_at<'s>(place: u32, bytes: &'s [u8]) -> Option<(Unit<'s>, &'s [u8])>
    requires { place + length bytes.now + 2 < 2 ^ 32 }
    ensures unit { ReadsUnit place (codes "</" ++ bytes.now) result }
    ensures shorter { IfSome result (λ r. length r.1.now ≤ length bytes.now) }
{
    let (name, mid) = name_at(bytes)?;
    let rest = after_byte(b'>', after_white(mid))?;
    let span = Span {
        start: place,
        end: place + (bytes.len() + 2 - rest.len()) as u32,
    };
    Some((Unit::EndTag { span, name }, rest))
}
