//! References in texts and values, and the first that is bad.
ghost use Rattle.std.specs.Prelude.{◌≡◌, ◌↔◌, ◌+◌, ◌<◌, ◌≤◌, ◌^◌, ℕ, false, [], ◌∷◌, length, IsTrue, IfSome, MatchOption, map, nat_eq, Some};
ghost use Rattle.std.specs.List.{AllByRecursion, list_any, starts_with};
ghost use Rattle.tml_span.specs.References.{named_references, HasPrefix, EndsDigits, IsDecimalReference, IsHexReference, BeginsReference, FirstBadIn, IsBadAt, IsLeastPlace, IsNowhere, HasPiecesInOrder, EndsWithinAttribute, FollowEachOther, pieces_of, value_piece};
ghost use Rattle.tml_span.specs.View.{unit_of, attribute_of};

use crate::bytes::{ampersand_at, digits_len, hex_digits_len};
use crate::{Attr, Span, Unit};

/// Whether the digits at the start, of which at least 1 and at most `most` count, are closed by `;`.
fn is_closed(digits: usize, most: usize, bytes: &[u8]) -> bool
    requires { digits ≤ length bytes.now }
    ensures { IsTrue result ↔ EndsDigits digits most bytes.now }
{
    1 <= digits && digits <= most && bytes.get(digits) == Some(&b';')
}

/// Whether the bytes begin with one of the named references.
fn begins_named(bytes: &[u8]) -> bool
    ensures { result ≡ list_any (starts_with nat_eq bytes.now) named_references }
{
    bytes.starts_with(b"&lt;")
        || bytes.starts_with(b"&gt;")
        || bytes.starts_with(b"&amp;")
        || bytes.starts_with(b"&quot;")
        || bytes.starts_with(b"&apos;")
}

/// Whether the bytes begin with a reference by decimal digits.
fn begins_decimal(bytes: &[u8]) -> bool
    ensures { IsTrue result ↔ HasPrefix IsDecimalReference bytes.now }
{
    match bytes.strip_prefix(b"&#") {
        Some(digits) => is_closed(digits_len(digits), 7, digits),
        None => false,
    }
}

/// Whether the bytes begin with a reference by hexadecimal digits.
fn begins_hex(bytes: &[u8]) -> bool
    ensures { IsTrue result ↔ HasPrefix IsHexReference bytes.now }
{
    match bytes.strip_prefix(b"&#x") {
        Some(digits) => is_closed(hex_digits_len(digits), 6, digits),
        None => false,
    }
}

/// Whether the bytes begin with a reference.
fn begins_reference(bytes: &[u8]) -> bool
    ensures { IsTrue result ↔ BeginsReference bytes.now }
{
    begins_named(bytes) || begins_decimal(bytes) || begins_hex(bytes)
}

/// The index of the first `&` with which no reference begins.
fn bad_reference(bytes: &[u8]) -> Option<usize>
    ensures first { MatchOption result (IsNowhere (IsBadAt bytes.now)) (IsLeastPlace (IsBadAt bytes.now)) }
    ensures within { IfSome result (λ index. index < length bytes.now) }
{
    let mut index = 0;
    while let Some(ahead) = ampersand_at(&bytes[index..]) {
        index += ahead;
        if !begins_reference(&bytes[index..]) {
            return Some(index);
        }
        index += 1;
    }
    None
}

/// The place of the first bad reference in bytes that begin at a place.
fn bad_place(start: u32, bytes: &[u8]) -> Option<u32>
    requires { start + length bytes.now < 2 ^ 32 }
    ensures { FirstBadIn ((start, bytes.now) ∷ []) result }
{
    let index = bad_reference(bytes)?;
    Some(start + index as u32)
}

/// The place of the first bad reference in a text.
fn bad_place_in_text(span: Span, text: &[u8]) -> Option<u32>
    requires { span.start + length text.now ≤ span.end }
    ensures { FirstBadIn ((span.start, text.now) ∷ []) result }
{
    bad_place(span.start, text)
}

/// The place of the first bad reference in the value of an attribute.
pub fn bad_place_in_value(attr: &Attr) -> Option<u32>
    requires { EndsWithinAttribute (attribute_of attr.now) }
    ensures { FirstBadIn (value_piece (attribute_of attr.now) ∷ []) result }
{
    bad_place(attr.span.end - 1 - attr.value.len() as u32, attr.value)
}

/// The place of the first bad reference in the values of attributes.
fn bad_value(attrs: &[Attr]) -> Option<u32>
    requires within { AllByRecursion EndsWithinAttribute (map attribute_of attrs.now) }
    requires follows { (low : ℕ) × (high : ℕ) × FollowEachOther low (map value_piece (map attribute_of attrs.now)) high }
    ensures { FirstBadIn (map value_piece (map attribute_of attrs.now)) result }
{
    for attr in attrs {
        if let Some(place) = bad_place_in_value(attr) {
            return Some(place);
        }
    }
    None
}

/// Whether references may be in a unit: it is a text, or a tag with attributes.
pub fn has_pieces(unit: &Unit) -> bool
    ensures { result ≡ false → pieces_of (unit_of unit.now) ≡ [] }
{
    match unit {
        Unit::Text { .. } => true,
        Unit::StartTag { attrs, .. } | Unit::EmptyTag { attrs, .. } => !attrs.as_slice().is_empty(),
        _ => false,
    }
}

/// The place of the first bad reference in a unit.
pub fn bad_reference_in(unit: &Unit) -> Option<u32>
    requires { HasPiecesInOrder (unit_of unit.now) }
    ensures { FirstBadIn (pieces_of (unit_of unit.now)) result }
{
    match unit {
        Unit::Text { span, text } => bad_place_in_text(*span, text),
        Unit::StartTag { attrs, .. } | Unit::EmptyTag { attrs, .. } => bad_value(attrs.as_slice()),
        _ => None,
    }
}
