//! The unit that some bytes begin with.
ghost use Rattle.std.specs.Prelude.{true, false, ◌≡◌, ◌+◌, ◌<◌, ◌^◌, slice_index, codes, length, nat_eq, IfOk, IfSome};
ghost use Rattle.std.specs.List.{starts_with};
ghost use Rattle.tml_span.specs.Bytes as kinds;
ghost use Rattle.tml_span.specs.Cutting.{FindsUnit};
ghost use Rattle.tml_span.specs.Units.{bom_bytes};
ghost use Rattle.tml_span.specs.View.{ReadsUnit, unit_of};

use crate::bytes::text_len;
use crate::enclosed::{comment_at, declaration_at, doctype_at};
use crate::room::Room;
use crate::tags::{end_tag_at, tag_at};
use crate::{Memory, Span, Unit};
use std::alloc::Global;

/// The text at the start, and what follows it.
fn text_at<'s>(place: u32, bytes: &'s [u8]) -> (Unit<'s>, &'s [u8])
    requires fits { place + length bytes.now < 2 ^ 32 }
    requires some { 0 < length bytes.now }
    requires text { kinds.is_text_byte (slice_index bytes.now 0) ≡ true }
    requires no_bom { place ≡ 0 → starts_with nat_eq bytes.now bom_bytes ≡ false }
    ensures unit { FindsUnit place bytes.now (unit_of result.0) result.1.now }
    ensures shorter { length result.1.now < length bytes.now }
{
    let (text, rest) = bytes.split_at(text_len(bytes));
    let span = Span {
        start: place,
        end: place + text.len() as u32,
    };
    (Unit::Text { span, text }, rest)
}

/// The Bom at place 0, or the text at the start, and what follows it.
pub fn text_or_bom_at<'s>(place: u32, bytes: &'s [u8]) -> (Unit<'s>, &'s [u8])
    requires fits { place + length bytes.now < 2 ^ 32 }
    requires some { 0 < length bytes.now }
    requires text { kinds.is_text_byte (slice_index bytes.now 0) ≡ true }
    ensures unit { FindsUnit place bytes.now (unit_of result.0) result.1.now }
    ensures shorter { length result.1.now < length bytes.now }
{
    if place == 0 && bytes.starts_with(b"\xEF\xBB\xBF") {
        let (_, rest) = bytes.split_at(3);
        let span = Span { start: 0, end: 3 };
        return (Unit::Bom { span }, rest);
    }
    text_at(place, bytes)
}

/// A comment or a doctype, whose first bytes are `<!`, and what follows it.
#[inline(always)]
pub fn comment_or_doctype_at<'s>(place: u32, bytes: &'s [u8]) -> Option<(Unit<'s>, &'s [u8])>
    requires fits { place + length bytes.now < 2 ^ 32 }
    requires prefix { starts_with nat_eq bytes.now (codes "<!") ≡ true }
    ensures unit { ReadsUnit place bytes.now result }
    ensures shorter { IfSome result (λ r. length r.1.now < length bytes.now) }
{
    if bytes.starts_with(b"<!--") {
        comment_at(place, bytes)
    } else {
        doctype_at(place, bytes)
    }
}

/// The unit at the start, and what follows it. There is none where no unit begins.
pub fn unit_at<'s>(
    room: &mut Room<'s>,
    alloc: Global,
    place: u32,
    bytes: &'s [u8],
) -> Result<Option<(Unit<'s>, &'s [u8])>, Memory>
    requires { place + length bytes.now < 2 ^ 32 }
    ensures unit { IfOk result (λ o. ReadsUnit place bytes.now o) }
    ensures shorter { IfOk result (λ o. IfSome o (λ r. length r.1.now < length bytes.now)) }
{
    match bytes {
        [b'<', b'/', inner @ ..] => Ok(end_tag_at(place, inner)),
        [b'<', b'!', ..] => Ok(comment_or_doctype_at(place, bytes)),
        [b'<', b'?', ..] => Ok(declaration_at(place, bytes)),
        [b'<', inner @ ..] => tag_at(room, alloc, place, inner),
        [_, ..] => Ok(Some(text_or_bom_at(place, bytes))),
        [] => Ok(None),
    }
}
