//! Units that run up to their first closing text: declarations, doctypes and comments.
ghost use Rattle.std.specs.Prelude.{true, false, ◌≡◌, ◌+◌, ◌-◌, ◌<◌, ◌≤◌, ◌^◌, ◌++◌, codes, drop, take, length, nat_eq, slice_index, IfNone, IfSome, List, ℕ};
ghost use Rattle.memchr.specs.Find.{FindsNeedle};
ghost use Rattle.std.specs.Bool.{Decides};
ghost use Rattle.std.specs.List.{starts_with};
ghost use Rattle.tml_span.specs.Bytes as kinds;
ghost use Rattle.tml_span.specs.Units.{BeginsWithWord, Lacks};
ghost use Rattle.tml_span.specs.View.{ReadsUnit};

use crate::bytes::{doctype_len, index_of, is_white};
use crate::{Span, Unit};

/// The index of the first closing text, of which `>` is the last byte. It is searched by that byte, since a closing text
/// mostly is near.
fn find_closing(bytes: &[u8], close: &[u8]) -> Option<usize>
    requires some { 0 < length close.now }
    requires last { slice_index close.now (length close.now - 1) ≡ kinds.byte (codes ">") }
    ensures { FindsNeedle bytes.now close.now 0 result }
{
    let mut end = 0;
    while let Some(ahead) = index_of(b'>', &bytes[end..]) {
        end += ahead + 1;
        if bytes[..end].ends_with(close) {
            return Some(end - close.len());
        }
    }
    None
}

/// Splits the bytes past the first closing text that begins at or after `opening`.
fn split_past<'s>(bytes: &'s [u8], opening: usize, close: &[u8]) -> Option<(&'s [u8], &'s [u8])>
    requires within { opening ≤ length bytes.now }
    requires some { 0 < length close.now }
    requires last { slice_index close.now (length close.now - 1) ≡ kinds.byte (codes ">") }
    requires small { length close.now < 2 ^ 32 }
    ensures none { IfNone result (Lacks close.now (drop opening bytes.now)) }
    ensures some { IfSome result (λ r. (body : List ℕ) × Lacks close.now body
        × (r.0.now ≡ take opening bytes.now ++ body ++ close.now) × (bytes.now ≡ r.0.now ++ r.1.now)) }
    ensures shorter { IfSome result (λ r. length r.1.now < length bytes.now) }
{
    let (_, inner) = bytes.split_at(opening);
    let len = find_closing(inner, close)?;
    Some(bytes.split_at(opening + len + close.len()))
}

/// A comment, whose first bytes are `<!--`, and what follows it.
#[inline(always)]
pub fn comment_at<'s>(place: u32, bytes: &'s [u8]) -> Option<(Unit<'s>, &'s [u8])>
    requires fits { place + length bytes.now < 2 ^ 32 }
    requires prefix { starts_with nat_eq bytes.now (codes "<!--") ≡ true }
    ensures unit { ReadsUnit place bytes.now result }
    ensures shorter { IfSome result (λ r. length r.1.now < length bytes.now) }
{
    let (text, rest) = split_past(bytes, 4, b"-->")?;
    let span = Span {
        start: place,
        end: place + text.len() as u32,
    };
    Some((Unit::Comment { span, text }, rest))
}

/// Whether the bytes begin with a word and one white space.
fn begins_with_word(bytes: &[u8], word: &[u8]) -> bool
    ensures { Decides result (BeginsWithWord word.now bytes.now) }
{
    let Some(rest) = bytes.strip_prefix(word) else {
        return false;
    };
    match rest {
        [white, ..] => is_white(*white),
        [] => false,
    }
}

/// A declaration, whose first bytes are `<?`, and what follows it.
pub fn declaration_at<'s>(place: u32, bytes: &'s [u8]) -> Option<(Unit<'s>, &'s [u8])>
    requires fits { place + length bytes.now < 2 ^ 32 }
    requires prefix { starts_with nat_eq bytes.now (codes "<?") ≡ true }
    ensures unit { ReadsUnit place bytes.now result }
    ensures shorter { IfSome result (λ r. length r.1.now < length bytes.now) }
{
    if !begins_with_word(bytes, b"<?xml") {
        return None;
    }
    let (text, rest) = split_past(bytes, 6, b"?>")?;
    let span = Span {
        start: place,
        end: place + text.len() as u32,
    };
    Some((Unit::Declaration { span, text }, rest))
}

/// A doctype, whose first bytes are `<!` but not `<!--`, and what follows it.
pub fn doctype_at<'s>(place: u32, bytes: &'s [u8]) -> Option<(Unit<'s>, &'s [u8])>
    requires fits { place + length bytes.now < 2 ^ 32 }
    requires prefix { starts_with nat_eq bytes.now (codes "<!") ≡ true }
    requires other { starts_with nat_eq bytes.now (codes "<!--") ≡ false }
    ensures unit { ReadsUnit place bytes.now result }
    ensures shorter { IfSome result (λ r. length r.1.now < length bytes.now) }
{
    if !begins_with_word(bytes, b"<!DOCTYPE") {
        return None;
    }
    let (_, inner) = bytes.split_at(10);
    let (_, end) = inner.split_at(doctype_len(inner));
    let rest = end.strip_prefix(b">")?;
    let (text, _) = bytes.split_at(bytes.len() - rest.len());
    let span = Span {
        start: place,
        end: place + text.len() as u32,
    };
    Some((Unit::Doctype { span, text }, rest))
}
