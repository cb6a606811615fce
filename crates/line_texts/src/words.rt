//! The words of one line.
ghost use Rattle.line_texts.specs.Words as words;
ghost use Rattle.std.specs.List.{prefix_len};
ghost use Rattle.std.specs.Str.{bytes_eq};
ghost use Rattle.std.specs.Prelude.{◌≡◌, ◌≤◌, length, option_map};

use net_core::{Rel, rel_of};

/// How many bytes come before the first one that is `stop`.
pub fn len_to(stop: u8, bytes: &[u8]) -> usize
    ensures within { result ≤ length bytes.now }
    ensures len { result ≡ prefix_len (words.is_not stop) bytes.now }
{
    bytes.iter().take_while(|b| **b != stop).count()
}

/// The number below 2^32 up to the byte that ends it, and what follows that byte: in decimal, without sign and without
/// leading zeros.
#[tactic(auto, unfolding(crate::specs::Words::number_to))]
fn number_to(stop: u8, bytes: &[u8]) -> Option<(u32, &[u8])>
    ensures { option_map (λ r. (r.0, r.1.now)) result ≡ words.number_to stop bytes.now }
{
    let (n, rest) = long_to(stop, bytes)?;
    if n <= u64::from(u32::MAX) {
        Some((n as u32, rest))
    } else {
        None
    }
}

/// The number below 2^64 up to the byte that ends it, and what follows that byte: in decimal, without sign and without
/// leading zeros.
#[tactic(auto, using(crate::proofs::Digits::long_to_is))]
pub fn long_to(stop: u8, bytes: &[u8]) -> Option<(u64, &[u8])>
    ensures { option_map (λ r. (r.0, r.1.now)) result ≡ words.long_to stop bytes.now }
{
    match bytes {
        [first, ..] if *first == stop => None,
        [b'0', rest @ ..] => Some((0, after_byte(stop, rest)?)),
        _ => digits_to(stop, bytes),
    }
}

/// What follows a byte.
fn after_byte(byte: u8, bytes: &[u8]) -> Option<&[u8]>
    ensures { option_map (λ r. r.now) result ≡ words.after_byte byte bytes.now }
{
    match bytes {
        [first, rest @ ..] if *first == byte => Some(rest),
        _ => None,
    }
}

/// The number that digits write, up to the byte that ends them, and what follows that byte.
#[tactic(auto, unfolding(crate::specs::Words::digits_to))]
fn digits_to(stop: u8, bytes: &[u8]) -> Option<(u64, &[u8])>
    ensures { option_map (λ r. (r.0, r.1.now)) result ≡ words.digits_to stop 0 bytes.now }
{
    let mut n = 0;
    let mut rest = bytes;
    while let [b, more @ ..] = rest {
        if *b == stop {
            return Some((n, more));
        }
        n = digit_after(n, *b)?;
        rest = more;
    }
    None
}

/// The number that one digit more writes after a number.
#[tactic(auto, unfolding(crate::specs::Words::digit_after))]
fn digit_after(n: u64, b: u8) -> Option<u64>
    ensures { result ≡ words.digit_after n b }
{
    match b {
        b'0'..=b'9' => n.checked_mul(10)?.checked_add(u64::from(b - b'0')),
        _ => None,
    }
}

/// The word up to the byte that ends it, and what follows that byte.
#[tactic(auto, unfolding(crate::specs::Words::word_to))]
fn word_to(stop: u8, bytes: &[u8]) -> Option<(&[u8], &[u8])>
    ensures { option_map (λ r. (r.0.now, r.1.now)) result ≡ words.word_to stop bytes.now }
{
    let (word, rest) = bytes.split_at(len_to(stop, bytes));
    match rest {
        [] => None,
        [_, rest @ ..] => Some((word, rest)),
    }
}

/// Whether a line is this one.
pub fn is_same(line: &[u8], wanted: &[u8]) -> bool
    ensures { result ≡ bytes_eq line.now wanted.now }
{
    line == wanted
}

/// What follows a keyword. It stands in its callers, where the keyword is a constant.
#[inline(always)]
#[tactic(auto, unfolding(crate::specs::Words::after))]
pub fn after<'t>(keyword: &[u8], line: &'t [u8]) -> Option<&'t [u8]>
    ensures { option_map (λ r. r.now) result ≡ words.after keyword.now line.now }
{
    line.strip_prefix(keyword)
}

/// The number of a line of a keyword and one number.
#[tactic(auto, unfolding(crate::specs::Words::one_of))]
pub fn one_of(keyword: &[u8], line: &[u8]) -> Option<u32>
    ensures { result ≡ words.one_of keyword.now line.now }
{
    let rest = after(keyword, line)?;
    let (n, rest) = number_to(b'\n', rest)?;
    if rest.is_empty() { Some(n) } else { None }
}

/// The numbers of a line of a keyword and two numbers.
#[tactic(auto, using(crate::proofs::WordLaws::two_of_is))]
pub fn two_of(keyword: &[u8], line: &[u8]) -> Option<(u32, u32)>
    ensures { result ≡ words.two_of keyword.now line.now }
{
    let (pair, rest) = two_to(keyword, line)?;
    if rest.is_empty() { Some(pair) } else { None }
}

/// The numbers after a keyword, up to the LF that ends them, and what follows it. It stands in its callers, where the
/// keyword is a constant.
#[inline(always)]
#[tactic(auto, unfolding(crate::specs::Words::two_to))]
pub fn two_to<'t>(keyword: &[u8], text: &'t [u8]) -> Option<((u32, u32), &'t [u8])>
    ensures { option_map (λ r. (r.0, r.1.now)) result ≡ words.two_to keyword.now text.now }
{
    let rest = after(keyword, text)?;
    let (m, rest) = number_to(b' ', rest)?;
    let (n, rest) = number_to(b'\n', rest)?;
    Some(((m, n), rest))
}

/// The intervals and the relation of a line of a keyword and a relation between two intervals.
#[tactic(auto, unfolding(crate::specs::Words::relation_of))]
pub fn relation_of(keyword: &[u8], line: &[u8]) -> Option<(u32, Rel, u32)>
    ensures { result ≡ words.relation_of keyword.now line.now }
{
    let rest = after(keyword, line)?;
    let (a, rest) = number_to(b' ', rest)?;
    let (word, rest) = word_to(b' ', rest)?;
    let rel = rel_of(word)?;
    let (b, rest) = number_to(b'\n', rest)?;
    if rest.is_empty() {
        Some((a, rel, b))
    } else {
        None
    }
}
