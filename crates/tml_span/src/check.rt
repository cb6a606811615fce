//! Units that are checked and not kept, which takes no memory.
ghost use Rattle.std.specs.Prelude.{◌≡◌, ◌≢◌, ◌+◌, ◌<◌, ◌≤◌, ◌^◌, ◌++◌, [], codes, slice_index, length, IfErr, IfSome, OnOk};
ghost use Rattle.tml_span.specs.Bytes as kinds;
ghost use Rattle.tml_span.specs.Checking.{AddsPiece, ChecksAttributes, ChecksUnit};
ghost use Rattle.tml_span.specs.Cutter.{IsCutSoFar};
ghost use Rattle.tml_span.specs.Faults.{HasPlainFault};
ghost use Rattle.tml_span.specs.References.{FirstBadIn, HasPiecesInOrder, EndsWithinAttribute, pieces_of, value_piece};
ghost use Rattle.tml_span.specs.View.{attribute_of, unit_of};
ghost use Rattle.tml_span.specs.Whole.{CutsWhole};

use crate::enclosed::declaration_at;
use crate::fault::PlainCut;
use crate::references::{bad_place_in_value, bad_reference_in};
use crate::scan::{comment_or_doctype_at, text_or_bom_at};
use crate::tags::{after_white, attribute_at, close_at, end_tag_at, name_at};
use crate::{Attr, Unit};

/// The place of the first bad reference in a part of a source, and what follows that part.
pub struct Checked<'s> {
    pub bad: Option<u32>,
    pub rest: &'s [u8],
}

/// The first bad reference in the values so far and one more.
fn first_bad(bad: Option<u32>, attr: &Attr) -> Option<u32>
    requires { EndsWithinAttribute (attribute_of attr.now) }
    ensures { AddsPiece bad (value_piece (attribute_of attr.now)) result }
{
    match bad {
        Some(_) => bad,
        None => bad_place_in_value(attr),
    }
}

/// As many attributes as there are.
fn check_attributes(place: u32, bytes: &[u8]) -> Checked<'_>
    requires { place + length bytes.now < 2 ^ 32 }
    ensures reads { ChecksAttributes place bytes.now result }
    ensures shorter { length result.rest.now ≤ length bytes.now }
{
    let mut bad = None;
    let mut at = place;
    let mut rest = bytes;
    while let Some((attr, after)) = attribute_at(at, rest) {
        bad = first_bad(bad, &attr);
        at += (rest.len() - after.len()) as u32;
        rest = after;
    }
    Checked { bad, rest }
}

/// A start tag or an empty tag after its `<`, with which none of the other units begins.
fn check_tag(place: u32, bytes: &[u8]) -> Option<Checked<'_>>
    requires fits { place + length bytes.now + 1 < 2 ^ 32 }
    requires slash { slice_index bytes.now 0 ≢ kinds.byte (codes "/") }
    requires bang { slice_index bytes.now 0 ≢ kinds.byte (codes "!") }
    requires query { slice_index bytes.now 0 ≢ kinds.byte (codes "?") }
    ensures unit { ChecksUnit place (codes "<" ++ bytes.now) result }
    ensures shorter { IfSome result (λ r. length r.rest.now ≤ length bytes.now) }
{
    let (name, mid) = name_at(bytes)?;
    let Checked { bad, rest: after } = check_attributes(place + 1 + name.len() as u32, mid);
    let (_, rest) = close_at(after_white(after))?;
    Some(Checked { bad, rest })
}

/// A unit and what follows it. It stands in its callers, so that of most units nothing is made.
#[inline(always)]
fn check_found<'s>(found: (Unit<'s>, &'s [u8])) -> Checked<'s>
    requires { HasPiecesInOrder (unit_of found.0) }
    ensures bad { FirstBadIn (pieces_of (unit_of found.entry.0)) result.bad }
    ensures rest { result.rest.now ≡ found.entry.1.now }
{
    let (unit, rest) = found;
    Checked {
        bad: bad_reference_in(&unit),
        rest,
    }
}

/// The unit at the start. There is none where no unit begins.
fn check_unit(place: u32, bytes: &[u8]) -> Option<Checked<'_>>
    requires { place + length bytes.now < 2 ^ 32 }
    ensures unit { ChecksUnit place bytes.now result }
    ensures shorter { IfSome result (λ r. length r.rest.now < length bytes.now) }
{
    match bytes {
        [b'<', b'/', inner @ ..] => Some(check_found(end_tag_at(place, inner)?)),
        [b'<', b'!', ..] => Some(check_found(comment_or_doctype_at(place, bytes)?)),
        [b'<', b'?', ..] => Some(check_found(declaration_at(place, bytes)?)),
        [b'<', inner @ ..] => check_tag(place, inner),
        [_, ..] => Some(check_found(text_or_bom_at(place, bytes))),
        [] => None,
    }
}

/// Looks at the units of a source from a place on, up to which it has no fault, one after another.
pub fn check_units(source: &[u8], start: u32) -> Result<(), PlainCut>
    requires { IsCutSoFar (record { source = source.now; place = start }) }
    ensures ok { OnOk result (CutsWhole source.now) }
    ensures err { IfErr result (λ e. HasPlainFault source.now e) }
{
    let mut place = start;
    let (_, mut rest) = source.split_at(start as usize);
    while !rest.is_empty() {
        let Some(Checked { bad, rest: after }) = check_unit(place, rest) else {
            return Err(PlainCut::BadMarkup { place });
        };
        if let Some(place) = bad {
            return Err(PlainCut::BadReference { place });
        }
        place += (rest.len() - after.len()) as u32;
        rest = after;
    }
    Ok(())
}
